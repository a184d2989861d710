// The walks over the mirror: the place that a first frame takes, and the live place of a continuation. Each is one walk, from the first place on.
ghost use Rattle.std.specs.Prelude.{◌≡◌, ◌+◌, ◌-◌, ◌<◌, ◌≤◌, false, ◌&&◌, ◌||◌, ◌==◌, IfSome, unwrap_or};
ghost use Rattle.session.specs.Rules.{pool_limit, silent_by};
ghost use Rattle.batch.specs.inner.Mirror.{first_from, key_at, open_at, own_at, chosen_in, live_in};
ghost use Rattle.batch.specs.inner.Walks.{heard_within, owner_at, in_four, Past, Stops};

use crate::mirror::Mirror;
use session::{Mode, SESSION_TIMEOUT_MS};

// ---- tests of one place

// How far after the silence's end, 500 before `time`, a last time is not silent: up to now where a clock that was set back is silence, as the original to the
// clock's end.
#[tactic(auto, unfolding(crate::specs::inner::Walks::heard_within))]
fn heard_within(mode: Mode, time: u64) -> u64
    ensures { result ≡ heard_within mode time }
{
    let from = time.saturating_sub(SESSION_TIMEOUT_MS);
    match mode {
        Mode::AsOriginal => u64::MAX - from,
        Mode::SetBackIsSilence => time - from,
    }
}

// One comparison a place, in either mode, and what it is compared with stays the same on a walk: a last time that is too early comes round to a larger number.
fn is_silent(mode: Mode, time: u64, last: u64) -> bool
    ensures { result ≡ silent_by mode time last }
{
    heard_within(mode, time) < last.wrapping_sub(time.saturating_sub(SESSION_TIMEOUT_MS))
}

fn is_open(mode: Mode, key: u64, time: u64, last: u64) -> bool
    ensures { result ≡ (key == 0 || silent_by mode time last) }
{
    (key == 0) | is_silent(mode, time, last)
}

fn is_own(mode: Mode, key: u64, time: u64, last: u64, owner: u8, source: u8) -> bool
    ensures { result ≡ ((key == 0 || silent_by mode time last) && owner == source) }
{
    is_open(mode, key, time, last) & (owner == source)
}

// Where a walk for a first frame stops: at the key, or at a place of the kind that it looks for beside it.
#[derive(Debug, Clone, Copy, PartialEq, Eq)]
enum Stop {
    Keyed(usize),
    Other(usize),
    Nowhere,
}

impl Mirror {
    // ---- four places at once, so that a walk that finds nothing there asks once; where it does, it goes on place by place

    #[tactic(auto, unfolding(crate::specs::inner::Walks::in_four, crate::specs::inner::Mirror::key_at))]
    fn key_in_four(&self, s: usize, key: u64) -> bool
        requires { s + 4 ≤ pool_limit }
        ensures { result ≡ in_four (key_at self.now.keys key) s }
    {
        (self.keys[s] == key)
            | (self.keys[s + 1] == key)
            | (self.keys[s + 2] == key)
            | (self.keys[s + 3] == key)
    }

    #[tactic(auto, unfolding(crate::specs::inner::Walks::in_four, crate::specs::inner::Walks::owner_at))]
    fn source_in_four(&self, s: usize, source: u8) -> bool
        requires { s + 4 ≤ pool_limit }
        ensures { result ≡ in_four (owner_at self.now.owners source) s }
    {
        (self.owners[s] == source)
            | (self.owners[s + 1] == source)
            | (self.owners[s + 2] == source)
            | (self.owners[s + 3] == source)
    }

    // From `from` on, past fours that do not have the key.
    fn past_keys(&self, from: usize, key: u64) -> usize
        requires { from ≤ self.now.size }
        ensures { (result ≤ self.now.size) × Past (key_at self.now.keys key) from result }
    {
        let mut s = from;
        // no `for`: place by place a frame of 8 sources with 26 bytes takes 28.1 ns in a pool of 32, by fours 22.4, and where it stops is the answer
        while s + 4 <= self.size {
            if self.key_in_four(s, key) {
                return s;
            }
            s += 4;
        }
        s
    }

    // From `from` on, past fours that have neither the key nor a place of the source.
    fn past_others(&self, from: usize, key: u64, source: u8) -> usize
        requires { from ≤ self.now.size }
        ensures { (result ≤ self.now.size) × Past (key_at self.now.keys key) from result × Past (owner_at self.now.owners source) from result }
    {
        let mut s = from;
        // the same
        while s + 4 <= self.size {
            if self.key_in_four(s, key) | self.source_in_four(s, source) {
                return s;
            }
            s += 4;
        }
        s
    }

    // ---- the walk for a first frame

    // Until a place is open.
    fn first_stop(&self, mode: Mode, key: u64, time: u64) -> Stop
        ensures { Stops (key_at self.now.keys key) (open_at mode self.now.keys self.now.lasts time) 0 self.now.size result }
    {
        for s in 0..self.size {
            let here = self.keys[s];
            if here == key {
                return Stop::Keyed(s);
            }
            if is_open(mode, here, time, self.lasts[s]) {
                return Stop::Other(s);
            }
        }
        Stop::Nowhere
    }

    // On from the first open place, which does not have the key, until an open place is of the source.
    fn own_stop(&self, mode: Mode, from: usize, key: u64, source: u8, time: u64) -> Stop
        requires { (from < self.now.size) × (key_at self.now.keys key from ≡ false) }
        ensures { Stops (key_at self.now.keys key) (own_at mode self.now.keys self.now.owners self.now.lasts source time) from self.now.size result }
    {
        let mut s = from;
        // no `for`: it leaps over fours
        loop {
            if is_own(
                mode,
                self.keys[s],
                time,
                self.lasts[s],
                self.owners[s],
                source,
            ) {
                return Stop::Other(s);
            }
            s = self.past_others(s + 1, key, source);
            if self.size <= s {
                return Stop::Nowhere;
            }
            if self.keys[s] == key {
                return Stop::Keyed(s);
            }
        }
    }

    // On from an open place of the source: the key alone is looked for.
    fn next_key(&self, from: usize, key: u64) -> Option<usize>
        requires { from ≤ self.now.size }
        ensures { (unwrap_or result pool_limit ≡ first_from (key_at self.now.keys key) from (self.now.size - from)) × IfSome result (λ s. s < self.now.size) }
    {
        for s in self.past_keys(from, key)..self.size {
            if self.keys[s] == key {
                return Some(s);
            }
        }
        None
    }

    // One walk for all three: each candidate that is found stays, and from there on less is asked of a place. The key ends it.
    pub(crate) fn choose(&self, mode: Mode, key: u64, source: u8, time: u64) -> Option<usize>
        ensures { (unwrap_or result pool_limit ≡ chosen_in mode self.now.keys self.now.owners self.now.lasts self.now.size key source time) × IfSome result (λ s. s < self.now.size) }
    {
        let free = match self.first_stop(mode, key, time) {
            Stop::Keyed(s) => return Some(s),
            Stop::Other(s) => s,
            Stop::Nowhere => return None,
        };
        let own = match self.own_stop(mode, free, key, source, time) {
            Stop::Keyed(s) => return Some(s),
            Stop::Other(s) => s,
            Stop::Nowhere => return Some(free),
        };
        Some(self.next_key(own + 1, key).unwrap_or(own))
    }

    // ---- the walk for a continuation

    // A message's frames come close together: the first live place with the key ends the walk.
    pub(crate) fn first_live(&self, mode: Mode, key: u64, time: u64) -> Option<usize>
        ensures { (unwrap_or result pool_limit ≡ live_in mode self.now.keys self.now.lasts self.now.size key time) × IfSome result (λ s. s < self.now.size) }
    {
        for i in 0..self.size {
            // the time of another key's place is not even read
            if self.keys[i] == key && !is_silent(mode, time, self.lasts[i]) {
                return Some(i);
            }
        }
        None
    }
}
