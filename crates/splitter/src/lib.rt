// The bench's splitter: frames of a payload, byte by byte, which is the injection side. It shares no code with the builder.
#![tactic(auto)]

ghost use Rattle.std.specs.Prelude.{◌≡◌, ◌+◌, ◌≤◌, ◌*◌, length};
ghost use Rattle.std.proofs.lemmas.List.Edits.{sets};
ghost use Rattle.splitter.specs.Frames.{count_in};
ghost use Rattle.splitter.specs.Bytes.{count_of};
ghost use Rattle.splitter.specs.Split.{SplitsInto, split_frames_from, ids_of, bytes_all, lens_of, SplitsIntoSlices};

mod bench_frames;
mod split_frame;

use crate::split_frame::{frame_of, split_of};
pub use bench_frames::{
    FILL, FRAME_BYTES, INDICES, MAX_FAST_PACKET_PAYLOAD, SEQUENCES, TOO_WIDE, frame_count,
};

// A captured or injected frame: identifier, bytes and length.
#[derive(Debug, Clone, Copy, PartialEq, Eq)]
pub struct Frame {
    pub id: u32,
    pub data: [u8; 8],
    pub len: usize,
}

// Why the splitter lays no frame.
#[derive(Debug, Clone, Copy, PartialEq, Eq)]
pub enum SplitError {
    BadSplit,
    TooWide,
    Short,
}

// The first `count` frames of a payload, from the row's first place on.
fn lay(row: &mut [Frame], id: u32, sequence: u8, payload: &[u8], count: usize)
    requires { (count ≤ length row.old) × (count ≤ count_of (length payload.now)) × (length payload.now ≤ 223) }
    ensures { row.new ≡ sets row.old 0 (split_frames_from id sequence payload.now 0 count) }
{
    for i in 0..count {
        row[i] = frame_of(id, sequence, payload, i as u8);
    }
}

// Splits a payload into Fast Packet frames of an identifier, in the lent row: how many there are.
pub fn fast_packet_frames(
    id: u32,
    sequence: u8,
    payload: &[u8],
    row: &mut [Frame],
) -> Result<usize, SplitError>
    ensures { SplitsInto id sequence payload.now row.old result row.new }
{
    let count = split_of(id, sequence, payload.len(), row.len())?;
    lay(row, id, sequence, payload, count);
    Ok(count)
}

// ---- the same in separate slices. Each of the two loops stays: over a trait for rows that are written they would be no plainer, with a struct of three
// `&mut` slices and an impl for each.

fn lay_rows(
    ids: &mut [u32],
    bytes: &mut [u8],
    lens: &mut [usize],
    id: u32,
    sequence: u8,
    payload: &[u8],
    count: usize,
)
    requires { (count ≤ count_in (length ids.old) (length bytes.old) (length lens.old)) × (count ≤ count_of (length payload.now)) × (length payload.now ≤ 223) }
    ensures { (ids.new ≡ sets ids.old 0 (ids_of (split_frames_from id sequence payload.now 0 count)))
        × (bytes.new ≡ sets bytes.old 0 (bytes_all (split_frames_from id sequence payload.now 0 count)))
        × (lens.new ≡ sets lens.old 0 (lens_of (split_frames_from id sequence payload.now 0 count))) }
{
    for i in 0..count {
        let frame = frame_of(id, sequence, payload, i as u8);
        let at = FRAME_BYTES * i;
        ids[i] = frame.id;
        bytes[at..at + FRAME_BYTES].copy_from_slice(&frame.data);
        lens[i] = frame.len;
    }
}

// `fast_packet_frames` into separate slices.
pub fn fast_packet_rows(
    id: u32,
    sequence: u8,
    payload: &[u8],
    ids: &mut [u32],
    bytes: &mut [u8],
    lens: &mut [usize],
) -> Result<usize, SplitError>
    ensures { SplitsIntoSlices id sequence payload.now ids.old bytes.old lens.old
        result ids.new bytes.new lens.new }
{
    let room = frame_count(ids.len(), bytes.len(), lens.len());
    let frames = split_of(id, sequence, payload.len(), room)?;
    lay_rows(ids, bytes, lens, id, sequence, payload, frames);
    Ok(frames)
}
