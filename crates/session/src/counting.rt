// The counters: each stops at the largest number that it can hold.
ghost use Rattle.std.specs.Prelude.{◌≡◌};
ghost use Rattle.session.specs.Counting.{raised};

use crate::{Counter, Counters};

// The counters with the marked one raised, up to the largest number.
#[tactic(auto, unfolding(crate::specs::Counting::raised, crate::specs::Counting::raise, crate::specs::Counting::most))]
pub fn count(counters: Counters, mark: Option<Counter>) -> Counters
    ensures { result ≡ raised mark counters }
{
    let mut after = counters;
    match mark {
        None => {}
        Some(Counter::Expired) => after.expired_sessions = after.expired_sessions.saturating_add(1),
        Some(Counter::Exhausted) => after.pool_exhausted = after.pool_exhausted.saturating_add(1),
        Some(Counter::Rejected) => after.rejected_frames = after.rejected_frames.saturating_add(1),
        Some(Counter::Lost) => after.lost_fragments = after.lost_fragments.saturating_add(1),
        Some(Counter::Unknown) => after.unknown_pgn = after.unknown_pgn.saturating_add(1),
    }
    after
}
