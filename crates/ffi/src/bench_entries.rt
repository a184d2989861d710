// The bench: strict reassembly, the splitter and the transmit check, over rows of numbers.
ghost use Rattle.std.specs.Prelude.{◌≡◌};
ghost use Rattle.splitter.specs.Frames.{count_in};
ghost use Rattle.ffi.specs.BenchEntries.{ReassemblesInNumbers, SplitsInNumbers, ChecksTxInNumbers};

use numbers::{split_count, split_number, told_checked, told_reassembled};
use oracle::{SliceRow, check_tx_row, reassemble_row};
use splitter::{fast_packet_rows, frame_count};

// The frames are rows of identifiers, eight bytes a frame, and lengths; the shortest row decides. 0 and in values[0] the number of messages, or a
// refusal and what it carries. The list gets sequence, start and length of each message.
pub fn hf_reassemble(
    ids: &[u32],
    bytes: &[u8],
    lens: &[usize],
    source: u8,
    pgn: u32,
    list: &mut [usize],
    arena: &mut [u8],
    values: &mut [u64; 5],
) -> u32
    ensures { ReassemblesInNumbers ids.now bytes.now lens.now source pgn list.old arena.old
        result list.new arena.new values.new }
{
    let r = reassemble_row(SliceRow { ids, bytes, lens }, source, pgn, list, arena);
    told_reassembled(r, values)
}

// How many frames rows of these lengths hold.
pub fn hf_frame_count(ids: usize, bytes: usize, lens: usize) -> usize
    ensures { result ≡ count_in ids bytes lens }
{
    frame_count(ids, bytes, lens)
}

// 0 and the number of frames laid into the rows, or 28, 8 or 27 and 0.
pub fn hf_fast_packet_frames(
    id: u32,
    sequence: u8,
    payload: &[u8],
    ids: &mut [u32],
    bytes: &mut [u8],
    lens: &mut [usize],
    frames: &mut usize,
) -> u32
    ensures { SplitsInNumbers id sequence payload.now ids.old bytes.old lens.old
        result ids.new bytes.new lens.new frames.new }
{
    let s = fast_packet_rows(id, sequence, payload, ids, bytes, lens);
    *frames = split_count(s);
    split_number(s)
}

// 0, or a refusal and what it carries.
pub fn hf_check_tx(
    ids: &[u32],
    bytes: &[u8],
    lens: &[usize],
    source: u8,
    expected: usize,
    hours_base: u32,
    values: &mut [u64; 5],
) -> u32
    ensures { ChecksTxInNumbers ids.now bytes.now lens.now source expected hours_base result values.new }
{
    let c = check_tx_row(SliceRow { ids, bytes, lens }, source, expected, hours_base);
    told_checked(c, values)
}
