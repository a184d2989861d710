// The place that a frame takes. A walk goes from the last head to the first, so that what is found last stands first.
ghost use Rattle.std.specs.Prelude.{◌≡◌, ◌<◌};
ghost use Rattle.session.specs.Rules.{pool_limit};
ghost use Rattle.session.specs.inner.Search.{nothing_found, first_of, place_of, within_limit};

use crate::{Found, Heard, POOL_LIMIT};

// Where the walk begins: `bad` says that the pool itself is too large.
#[tactic(auto, unfolding(crate::specs::inner::Search::nothing_found))]
pub fn nothing_found(bad: bool) -> Found
    ensures { result ≡ nothing_found bad }
{
    Found {
        bad,
        key: POOL_LIMIT,
        live: POOL_LIMIT,
        own: POOL_LIMIT,
        free: POOL_LIMIT,
    }
}

#[tactic(auto, unfolding(crate::specs::inner::Search::first_of, base::specs::Pick::pick))]
fn first_of(a: usize, b: usize) -> usize
    ensures { result ≡ first_of a b }
{
    if a < POOL_LIMIT { a } else { b }
}

// The place that the frame takes, or POOL_LIMIT: a first frame's own key, live or not, before a free slot of its source, before any free slot.
#[tactic(auto, unfolding(crate::specs::inner::Search::place_of, base::specs::Pick::pick))]
pub fn place_for(s: Found, heard: Heard) -> usize
    ensures { result ≡ place_of heard s }
{
    if heard.index() == 0 {
        first_of(s.key, first_of(s.own, s.free))
    } else {
        s.live
    }
}

// A place to look at, where none was found.
#[tactic(auto, unfolding(crate::specs::inner::Search::within_limit, base::specs::Pick::pick))]
pub fn within_limit(i: usize) -> usize
    ensures { (result ≡ within_limit i) × (result < pool_limit) }
{
    if i < POOL_LIMIT { i } else { 0 }
}
