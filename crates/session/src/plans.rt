// The plan of a frame: decided on one head, and carried out by whoever has the buffer. Where the slot was not found nothing is asked of the head.
ghost use Rattle.std.specs.Prelude.{◌≡◌, true};
ghost use Rattle.session.specs.Rules.{silent_by};
ghost use Rattle.session.specs.Heads.{all_there, copied_head};
ghost use Rattle.session.specs.Counting.{expired_mark};
ghost use Rattle.session.specs.inner.Plan.{is_late, idle, plan_open, plan_first, plan_copy, plan_next, plan_listed, plan_of};

use crate::frames::{FIRST_DATA, NEXT_DATA};
use crate::{Counter, FIRST_FRAME_PAYLOAD, Head, Heard, Kind, Mode, Plan};

// The head as it is, and no byte moves.
#[tactic(auto, unfolding(crate::specs::inner::Plan::idle))]
fn stay(kind: Kind, mark: Option<Counter>, head: Head) -> Plan
    ensures { result ≡ idle kind mark head }
{
    Plan {
        kind,
        mark,
        head,
        at: 0,
        from: 0,
        count: 0,
        whole: 0,
        short: 0,
    }
}

// A slot that is taken while in progress and silent is counted.
#[tactic(auto, unfolding(crate::specs::Counting::expired_mark, crate::specs::inner::Plan::is_late))]
fn mark_expired(mode: Mode, h: Head, heard: Heard) -> Option<Counter>
    ensures { result ≡ expired_mark (is_late (silent_by mode) heard h) }
{
    if h.in_progress & mode.is_silent(heard.now_ms, h.last_seen_ms) {
        Some(Counter::Expired)
    } else {
        None
    }
}

#[tactic(auto, unfolding(crate::specs::inner::Plan::plan_open, crate::specs::inner::Plan::idle))]
fn plan_open(mode: Mode, found: bool, h: Head, heard: Heard) -> Plan
    ensures { result ≡ plan_open found (silent_by mode) heard h }
{
    if !found {
        return stay(Kind::PoolFull, Some(Counter::Exhausted), h);
    }
    let mark = mark_expired(mode, h, heard);
    Plan {
        from: FIRST_DATA,
        count: FIRST_FRAME_PAYLOAD,
        ..stay(Kind::FragmentConsumed, mark, Head::opened(heard))
    }
}

// First frame: carries the total expected size. One of six bytes or less is delivered without touching the session.
#[tactic(auto, unfolding(crate::specs::inner::Plan::plan_first, crate::specs::inner::Plan::plan_sized, crate::specs::inner::Plan::plan_short, crate::specs::inner::Plan::idle))]
fn plan_first(mode: Mode, found: bool, h: Head, heard: Heard) -> Plan
    ensures { result ≡ plan_first found (silent_by mode) heard h }
{
    if heard.is_bad_first() {
        return stay(Kind::Rejected, Some(Counter::Rejected), h);
    }
    let size = heard.size();
    if size <= FIRST_FRAME_PAYLOAD {
        return Plan {
            short: size,
            ..stay(Kind::MessageComplete, None, h)
        };
    }
    plan_open(mode, found, h, heard)
}

// A frame that goes into the buffer: the last of its message, or one that more must follow.
#[tactic(auto, unfolding(crate::specs::inner::Plan::plan_copy, crate::specs::inner::Plan::idle, crate::specs::Heads::all_there))]
fn plan_copy(h: Head, heard: Heard) -> Plan
    ensures { result ≡ plan_copy (all_there (copied_head heard h)) heard h }
{
    let after = h.copied(heard);
    let copied = Plan {
        at: h.current_size,
        from: NEXT_DATA,
        count: h.wanted(),
        ..stay(Kind::FragmentConsumed, None, after)
    };
    if after.current_size < after.expected_size {
        return copied;
    }
    Plan {
        kind: Kind::MessageComplete,
        head: after.reset(),
        whole: h.expected_size,
        ..copied
    }
}

// Continuation frame: a stray, out of turn or cut short, or copied, and perhaps the last.
#[tactic(auto, unfolding(crate::specs::inner::Plan::plan_next, crate::specs::inner::Plan::plan_turn))]
fn plan_next(found: bool, h: Head, heard: Heard) -> Plan
    ensures { result ≡ plan_next found heard h }
{
    if !found {
        return stay(Kind::Lost, Some(Counter::Lost), h);
    }
    if !h.is_next(heard) {
        return stay(Kind::Lost, Some(Counter::Lost), h.reset());
    }
    plan_copy(h, heard)
}

#[tactic(auto, using(crate::proofs::PlanLaws::listed_first, crate::proofs::PlanLaws::listed_next))]
fn plan_listed(mode: Mode, found: bool, h: Head, heard: Heard) -> Plan
    ensures { result ≡ plan_listed true found (silent_by mode) heard h }
{
    // without a byte there is no index, and it is no good first frame
    if (heard.length == 0) | (heard.index() == 0) {
        return plan_first(mode, found, h, heard);
    }
    plan_next(found, h, heard)
}

// What the frame does: `bad` says that the pool is impossible, `listed` that its PGN is listed, `found` that `h` is the head of the slot it takes.
#[tactic(auto, unfolding(crate::specs::inner::Plan::plan_of, crate::specs::inner::Plan::plan_listed))]
pub fn decide(mode: Mode, bad: bool, listed: bool, found: bool, h: Head, heard: Heard) -> Plan
    ensures { result ≡ plan_of bad listed found (silent_by mode) heard h }
{
    if bad {
        return stay(Kind::ImpossiblePool, None, h);
    }
    if !listed {
        return stay(Kind::NotListed, Some(Counter::Unknown), h);
    }
    plan_listed(mode, found, h, heard)
}
