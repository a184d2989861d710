// Why the bench refuses a frame: it is judged by itself, beside what strict reassembly knows of the open message.
ghost use Rattle.std.specs.Prelude.{◌≡◌, drop, None};
ghost use Rattle.oracle.specs.Strict.{odd_of};
ghost use Rattle.oracle.specs.inner.Frames.{padding_at, first_then, later_then, message_end};
ghost use Rattle.oracle.specs.inner.Scan.{fault_of};

use crate::{Fault, Scan};
use splitter::{FILL, FRAME_BYTES, INDICES, MAX_FAST_PACKET_PAYLOAD};

// The first byte from some place on that is not 0xFF; 0xFF if there is none.
#[tactic(auto, using(crate::proofs::FaultLaws::oddness))]
fn odd_byte(bytes: [u8; 8], from: usize) -> u8
    ensures { result ≡ odd_of (drop from bytes) }
{
    for i in from..FRAME_BYTES {
        if bytes[i] != FILL {
            return bytes[i];
        }
    }
    FILL
}

#[tactic(auto, using(base::proofs::Cases::cases, base::proofs::Cases::said))]
fn padding(n: usize, odd: u8) -> Option<Fault>
    ensures { result ≡ padding_at n odd }
{
    if odd == FILL {
        None
    } else {
        Some(Fault::Padding(n, odd))
    }
}

#[tactic(auto, using(base::proofs::Cases::cases))]
fn first_fault(scan: Scan, size: u8) -> Option<Fault>
    ensures { result ≡ first_then scan.n scan.missing size None }
{
    if 0 < scan.missing {
        return Some(Fault::Restarted(scan.n));
    }
    if size == 0 {
        return Some(Fault::Announced(scan.n, size));
    }
    if MAX_FAST_PACKET_PAYLOAD < usize::from(size) {
        return Some(Fault::Announced(scan.n, size));
    }
    None
}

#[tactic(auto, using(base::proofs::Cases::cases))]
fn later_fault(scan: Scan, sequence: u8, index: u8) -> Option<Fault>
    ensures { result ≡ later_then scan.n scan.missing scan.sequence scan.index sequence index None }
{
    let wrong = Some(Fault::Order(scan.n, sequence, index, scan.sequence, scan.index));
    if scan.missing == 0 {
        return Some(Fault::Stray(scan.n));
    }
    if sequence != scan.sequence {
        return wrong;
    }
    if index != scan.index {
        return wrong;
    }
    None
}

// From this place on the frame's bytes are no more the message's.
#[tactic(auto, using(base::proofs::Cases::cases, base::proofs::Cases::said), unfolding(crate::specs::inner::Frames::message_end))]
fn message_end(first: u8, second: u8, missing: u8) -> usize
    ensures { result ≡ message_end missing first second }
{
    if first % INDICES == 0 {
        2 + usize::from(second)
    } else {
        1 + usize::from(missing)
    }
}

// Why a frame is refused, if it is, by what is known of those before it.
pub(crate) fn frame_fault(scan: Scan, bytes: [u8; 8], len: usize) -> Option<Fault>
    ensures { result ≡ fault_of scan bytes len }
{
    if len != FRAME_BYTES {
        return Some(Fault::Length(scan.n, len));
    }
    let end = message_end(bytes[0], bytes[1], scan.missing);
    let rest = padding(scan.n, odd_byte(bytes, end));
    if bytes[0] % INDICES == 0 {
        return first_fault(scan, bytes[1]).or(rest);
    }
    later_fault(scan, bytes[0] / INDICES, bytes[0] % INDICES).or(rest)
}
