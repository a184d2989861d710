// One frame of the bench's splitter, byte by byte, and whether a payload can be split at all. Rows of frames are in lib.rt.
ghost use Rattle.std.specs.Prelude.{◌≡◌, ◌≤◌, ◌*◌, length};
ghost use Rattle.std.proofs.lemmas.List.Edits.{sets};
ghost use Rattle.splitter.specs.Bytes.{split_bytes, split_frame};
ghost use Rattle.splitter.specs.inner.Told.{told_of};

use crate::bench_frames::{
    FILL, FRAME_BYTES, INDICES, MAX_FAST_PACKET_PAYLOAD, SEQUENCES, TOO_WIDE,
};
use crate::{Frame, SplitError};

// The greatest sequence.
const LAST_SEQUENCE: u8 = 7;

// A first frame has its length and six bytes; any other has up to this many.
const LATER_BYTES: usize = 7;

// How many frames the splitter lays, from the identifier, the sequence and the sizes.
#[tactic(auto, using(base::proofs::Cases::cases), unfolding(crate::specs::inner::Told::told_of, crate::specs::Frames::is_wide))]
pub(crate) fn split_of(id: u32, sequence: u8, size: usize, room: usize) -> Result<usize, SplitError>
    ensures { result ≡ told_of id sequence size room }
{
    if size == 0 {
        return Err(SplitError::BadSplit);
    }
    if MAX_FAST_PACKET_PAYLOAD < size {
        return Err(SplitError::BadSplit);
    }
    if LAST_SEQUENCE < sequence {
        return Err(SplitError::BadSplit);
    }
    let count = size / LATER_BYTES + 1;
    if TOO_WIDE <= id {
        return Err(SplitError::TooWide);
    }
    if room < count {
        return Err(SplitError::Short);
    }
    Ok(count)
}

// The first of these bytes, as many as the place holds.
#[tactic(auto, using(crate::proofs::ByteLaws::put_laid))]
fn put(place: &mut [u8], bytes: &[u8])
    ensures { place.new ≡ sets place.old 0 bytes.now }
{
    let count = place.len().min(bytes.len());
    place[..count].copy_from_slice(&bytes[..count]);
}

// The bytes of a payload's frame: a first frame has its message's length and six of them, any other has seven.
fn bytes_of(sequence: u8, payload: &[u8], index: u8) -> [u8; FRAME_BYTES]
    requires { (length payload.now ≤ 223) × (7 * index ≤ length payload.now) }
    ensures { result ≡ split_bytes sequence payload.now index }
{
    let mut data = [FILL; FRAME_BYTES];
    data[0] = sequence % SEQUENCES * INDICES + index % INDICES;
    if index == 0 {
        data[1] = payload.len() as u8;
        put(&mut data[2..], &payload[0..]);
        return data;
    }
    let start = LATER_BYTES * usize::from(index) - 1;
    put(&mut data[1..], &payload[start..]);
    data
}

// A payload's frame.
#[tactic(auto, unfolding(crate::specs::Bytes::split_frame))]
pub(crate) fn frame_of(id: u32, sequence: u8, payload: &[u8], index: u8) -> Frame
    requires { (length payload.now ≤ 223) × (7 * index ≤ length payload.now) }
    ensures { result ≡ split_frame id sequence payload.now index }
{
    Frame {
        id,
        data: bytes_of(sequence, payload, index),
        len: FRAME_BYTES,
    }
}
