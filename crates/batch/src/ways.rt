// The ways that most frames go, told apart before a plan is made.
ghost use Rattle.std.specs.Prelude.{◌≡◌, true, ◌-◌, ◌<◌, ◌≤◌};
ghost use Rattle.session.specs.Heads.{copied_head};
ghost use Rattle.batch.specs.inner.Ways.{short_in, miss_kind, miss_mark, runs_on};

use fast_packet::MAX_FAST_PACKET_PAYLOAD;
use session::{CONTINUATION_PAYLOAD, Counter, FIRST_FRAME_PAYLOAD, Head, Heard, Kind};

// How many bytes the message has that comes in this one frame of a listed PGN; 0 where none does.
#[tactic(auto, using(crate::proofs::WayLaws::ways))]
pub(crate) fn short_in(heard: Heard) -> usize
    ensures { (result ≡ short_in true heard) × (result ≤ 6) }
{
    let data = heard.data;
    if data[0] % 32 != 0 {
        return 0;
    }
    let size = usize::from(data[1]);
    if size <= FIRST_FRAME_PAYLOAD { size } else { 0 }
}

// What a frame of a listed PGN that takes no slot and brings no message is told, and the counter that it raises.
pub(crate) fn missed(heard: Heard) -> (Kind, Option<Counter>)
    ensures { (result.0 ≡ miss_kind true heard) × (result.1 ≡ miss_mark true heard) }
{
    let data = heard.data;
    if data[0] % 32 != 0 {
        return (Kind::Lost, Some(Counter::Lost));
    }
    let size = usize::from(data[1]);
    if (size == 0) | (MAX_FAST_PACKET_PAYLOAD < size) {
        return (Kind::Rejected, Some(Counter::Rejected));
    }
    (Kind::PoolFull, Some(Counter::Exhausted))
}

// Whether the frame is the session's next, and more than its seven bytes are missing.
#[tactic(auto, using(crate::proofs::WayLaws::ways))]
pub(crate) fn runs_on(h: Head, heard: Heard) -> bool
    ensures { result ≡ runs_on heard h }
{
    let data = heard.data;
    if usize::from(data[0] % 32) != usize::from(h.last_frame_index) + 1 {
        return false;
    }
    CONTINUATION_PAYLOAD < h.expected_size.saturating_sub(h.current_size)
}

// The head after such a frame.
pub(crate) fn ran_on(h: Head, heard: Heard) -> Head
    requires { 7 < h.expected_size - h.current_size }
    ensures { result ≡ copied_head heard h }
{
    let data = heard.data;
    let mut after = h;
    after.last_frame_index = data[0] % 32;
    after.current_size += CONTINUATION_PAYLOAD;
    after.last_seen_ms = heard.now_ms;
    after
}
