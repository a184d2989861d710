// One message of the transmit test.
ghost use Rattle.std.specs.Prelude.{◌≡◌, ◌+◌, eqb, take};
ghost use Rattle.oracle.specs.Check.{hours_of, want_at, off_from};
ghost use Rattle.oracle.specs.inner.Tx.{message_of};

use crate::{CheckError, Scan, Tx};
use splitter::{FILL, MAX_FAST_PACKET_PAYLOAD, SEQUENCES};

// Messages of 26 bytes, the hours in four of them from byte 11 on, and a reserved byte.
const ENGINE_BYTES: usize = 26;

const HOURS_AT: usize = 11;

const HOURS_END: usize = 15;

const RESERVED_AT: usize = 19;

#[tactic(auto, unfolding(crate::specs::Check::hours_of))]
fn hours(bytes: [u8; MAX_FAST_PACKET_PAYLOAD]) -> u32
    ensures { result ≡ hours_of bytes }
{
    u32::from_le_bytes([
        bytes[HOURS_AT],
        bytes[HOURS_AT + 1],
        bytes[HOURS_AT + 2],
        bytes[HOURS_AT + 3],
    ])
}

// Whether the hours are the base and the message's number; no sum is taken, so none is too large.
#[tactic(auto, using(crate::proofs::CheckLaws::due))]
fn is_due(bytes: [u8; MAX_FAST_PACKET_PAYLOAD], base: u32, i: usize) -> bool
    ensures { result ≡ eqb (hours_of bytes) (base + i) }
{
    let hours = hours(bytes);
    base <= hours && (hours - base) as usize == i
}

#[tactic(auto, using(base::proofs::Cases::cases, base::proofs::Cases::said), unfolding(crate::specs::Check::want_at))]
fn want_at(k: usize, b: u8) -> u8
    ensures { result ≡ want_at k b }
{
    if k == RESERVED_AT {
        return FILL;
    }
    if k < HOURS_AT {
        return 0;
    }
    if k < HOURS_END { b } else { 0 }
}

fn off_pattern(bytes: [u8; MAX_FAST_PACKET_PAYLOAD]) -> bool
    ensures { result ≡ off_from 0 (take 26 bytes) }
{
    for k in 0..ENGINE_BYTES {
        if bytes[k] != want_at(k, bytes[k]) {
            return true;
        }
    }
    false
}

// The message that a frame made whole, whose bytes are the first of these: the first thing wrong with it, by what was known before the frame and after it.
#[tactic(auto, using(base::proofs::Cases::cases, base::proofs::Cases::said), unfolding(crate::specs::inner::Tx::message_of))]
pub(crate) fn check_message(
    before: Tx,
    after: Scan,
    bytes: [u8; MAX_FAST_PACKET_PAYLOAD],
) -> Result<(), CheckError>
    ensures { result ≡ message_of before.base before.scan.messages before.last after.sequence after.announced bytes }
{
    let i = before.scan.messages;
    if usize::from(after.announced) != ENGINE_BYTES {
        return Err(CheckError::Size(i));
    }
    if !is_due(bytes, before.base, i) {
        return Err(CheckError::Hours(i));
    }
    if off_pattern(bytes) {
        return Err(CheckError::Pattern(i));
    }
    if i == 0 {
        return Ok(());
    }
    if after.sequence != (before.last % SEQUENCES + 1) % SEQUENCES {
        return Err(CheckError::Sequence(i));
    }
    Ok(())
}
