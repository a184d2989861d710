// The bench: refusals 20 to 28 of strict reassembly and the splitter, 30 to 37 of the transmit check; 8 and 29 are in wide.rt. Each row is given twice, in
// separate slices and as frames, and what the second says follows on a line of its own.
use crate::frame_rows::{ROW_FRAMES, blank_row, count_of, row_of};
use oracle::{
    CheckError, Fault, ReassembleError, SliceRow, check_tx, check_tx_row, reassemble,
    reassemble_row,
};
use splitter::{Frame, SplitError, fast_packet_frames, fast_packet_rows};
use std::io::{self, Write};

const SOURCE: u8 = 35;

const PGN: u32 = 127489;

// That PGN, and an address claim, both from that source.
pub(crate) const ENGINE: u32 = 0x19F2_0123;

pub(crate) const CLAIM: u32 = 0x18EE_FF23;

fn show_fault<W: Write>(out: &mut W, fault: Fault) -> io::Result<()> {
    match fault {
        Fault::Length(n, len) => writeln!(out, "refusal 20: {n} {len}"),
        Fault::Restarted(n) => writeln!(out, "refusal 21: {n}"),
        Fault::Announced(n, size) => writeln!(out, "refusal 22: {n} {size}"),
        Fault::Stray(n) => writeln!(out, "refusal 23: {n}"),
        Fault::Order(n, sequence, index, wanted, next) => {
            writeln!(out, "refusal 24: {n} {sequence} {index} {wanted} {next}")
        }
        Fault::Padding(n, byte) => writeln!(out, "refusal 25: {n} {byte}"),
        Fault::TooWide(n) => writeln!(out, "refusal 29: {n}"),
    }
}

fn show_reassembled<W: Write>(
    out: &mut W,
    answer: Result<usize, ReassembleError>,
) -> io::Result<()> {
    match answer {
        Ok(n) => writeln!(out, "messages {n}"),
        Err(ReassembleError::Refused(fault)) => show_fault(out, fault),
        Err(ReassembleError::Incomplete(size)) => writeln!(out, "refusal 26: {size}"),
        Err(ReassembleError::NoRoom) => writeln!(out, "refusal 27"),
    }
}

// The messages of a row, read in separate slices and then as frames.
pub(crate) fn judge<W: Write>(
    out: &mut W,
    words: &str,
    slices: SliceRow,
    list: &mut [usize],
    arena: &mut [u8],
) -> io::Result<()> {
    write!(out, "{words}: ")?;
    show_reassembled(out, reassemble_row(slices, SOURCE, PGN, list, arena))?;
    let row = row_of(slices);
    let frames = &row[..count_of(slices)];
    write!(out, "  as frames: ")?;
    show_reassembled(out, reassemble(frames, SOURCE, PGN, list, arena))
}

// Into a list for one message and an arena of 16 bytes.
fn judge_one<W: Write>(out: &mut W, words: &str, bytes: &[u8], lens: &[usize]) -> io::Result<()> {
    let slices = SliceRow {
        ids: &[ENGINE, ENGINE],
        bytes,
        lens,
    };
    judge(out, words, slices, &mut [0; 3], &mut [0; 16])
}

fn one_frame<W: Write>(out: &mut W, words: &str, bytes: &[u8]) -> io::Result<()> {
    judge_one(out, words, bytes, &[8])
}

fn two_frames<W: Write>(out: &mut W, words: &str, bytes: &[u8]) -> io::Result<()> {
    judge_one(out, words, bytes, &[8, 8])
}

// Each of the following gives a few refusals: a long function takes the prover longer than its parts.
fn lengths_and_sizes<W: Write>(out: &mut W) -> io::Result<()> {
    judge_one(out, "length 7", b"\x00\x06\x01\x02\x03\x04\x05\x06", &[7])?;
    two_frames(
        out,
        "a first frame while open",
        b"\x00\x07\x01\x02\x03\x04\x05\x06\x00\x07\x01\x02\x03\x04\x05\x06",
    )?;
    one_frame(out, "announced 0", b"\x00\x00\x01\x02\x03\x04\x05\x06")
}

fn order_and_padding<W: Write>(out: &mut W) -> io::Result<()> {
    one_frame(
        out,
        "a continuation without open",
        b"\x01\x01\x02\x03\x04\x05\x06\x07",
    )?;
    two_frames(
        out,
        "index 2 where 1 is expected",
        b"\x20\x07\x01\x02\x03\x04\x05\x06\x22\x07\xFF\xFF\xFF\xFF\xFF\xFF",
    )?;
    one_frame(out, "padding 00", b"\x00\x05\x01\x02\x03\x04\x05\x00")
}

fn open_and_no_room<W: Write>(out: &mut W) -> io::Result<()> {
    one_frame(out, "still open", b"\x00\x07\x01\x02\x03\x04\x05\x06")?;
    two_frames(
        out,
        "two messages for a list of one",
        b"\x00\x06\x01\x02\x03\x04\x05\x06\x20\x06\x01\x02\x03\x04\x05\x06",
    )?;
    two_frames(
        out,
        "one message of seven bytes",
        b"\x00\x07\x01\x02\x03\x04\x05\x06\x01\x07\xFF\xFF\xFF\xFF\xFF\xFF",
    )
}

fn show_split<W: Write>(out: &mut W, answer: Result<usize, SplitError>) -> io::Result<()> {
    match answer {
        Ok(n) => writeln!(out, "frames {n}"),
        Err(SplitError::BadSplit) => writeln!(out, "refusal 28"),
        Err(SplitError::TooWide) => writeln!(out, "refusal 8"),
        Err(SplitError::Short) => writeln!(out, "refusal 27"),
    }
}

// Into room for nine frames, in slices and then as frames; the first length and the first byte that the slices then have, where 9 stood.
pub(crate) fn split<W: Write>(
    out: &mut W,
    words: &str,
    id: u32,
    sequence: u8,
    payload: &[u8],
) -> io::Result<(usize, u8)> {
    let mut ids = [9; ROW_FRAMES];
    let mut bytes = [9; 8 * ROW_FRAMES];
    let mut lens = [9; ROW_FRAMES];
    write!(out, "{words}: ")?;
    let laid = fast_packet_rows(id, sequence, payload, &mut ids, &mut bytes, &mut lens);
    show_split(out, laid)?;
    let mut row = blank_row();
    write!(out, "  as frames: ")?;
    show_split(out, fast_packet_frames(id, sequence, payload, &mut row))?;
    Ok((lens[0], bytes[0]))
}

fn splits<W: Write>(out: &mut W) -> io::Result<()> {
    split(out, "splitting nothing", ENGINE, 0, b"")?;
    split(out, "splitting seven bytes", ENGINE, 0, b"1234567")?;
    split(
        out,
        "splitting 63 bytes into nine frames",
        ENGINE,
        0,
        b"123456789012345678901234567890123456789012345678901234567890123",
    )?;
    Ok(())
}

pub(crate) fn refusals<W: Write>(out: &mut W) -> io::Result<()> {
    lengths_and_sizes(out)?;
    order_and_padding(out)?;
    open_and_no_room(out)?;
    splits(out)
}

// ---- the transmit check

fn show_checked<W: Write>(out: &mut W, answer: Result<(), CheckError>) -> io::Result<()> {
    match answer {
        Ok(()) => writeln!(out, "good"),
        Err(CheckError::NoCount) => writeln!(out, "refusal 30"),
        Err(CheckError::Over) => writeln!(out, "refusal 31"),
        Err(CheckError::NoClaim) => writeln!(out, "refusal 32"),
        Err(CheckError::Faulty(fault)) => show_fault(out, fault),
        Err(CheckError::Open(size)) => writeln!(out, "refusal 26: {size}"),
        Err(CheckError::Count(found)) => writeln!(out, "refusal 33: {found}"),
        Err(CheckError::Size(i)) => writeln!(out, "refusal 34: {i}"),
        Err(CheckError::Hours(i)) => writeln!(out, "refusal 35: {i}"),
        Err(CheckError::Pattern(i)) => writeln!(out, "refusal 36: {i}"),
        Err(CheckError::Sequence(i)) => writeln!(out, "refusal 37: {i}"),
    }
}

// A row checked in separate slices and then as frames.
pub(crate) fn check<W: Write>(
    out: &mut W,
    words: &str,
    slices: SliceRow,
    expected: usize,
    base: u32,
) -> io::Result<()> {
    write!(out, "{words}: ")?;
    show_checked(out, check_tx_row(slices, SOURCE, expected, base))?;
    let row = row_of(slices);
    write!(out, "  as frames: ")?;
    show_checked(
        out,
        check_tx(&row[..count_of(slices)], SOURCE, expected, base),
    )
}

// A record of 26 bytes with these hours, below 256, and another byte off the pattern or not.
fn record(hours: u8, odd: u8) -> [u8; 26] {
    let mut payload = [0; 26];
    payload[0] = odd;
    payload[11] = hours;
    payload[19] = 0xFF;
    payload
}

// What the transmit test sends: a claim, then two records of four frames each, laid by the splitter.
#[derive(Drop)]
struct Sent {
    ids: [u32; ROW_FRAMES],
    bytes: [u8; 8 * ROW_FRAMES],
    lens: [usize; ROW_FRAMES],
}

fn sent_slices(first: [u8; 26], sequence: u8, second: [u8; 26]) -> Sent {
    let mut ids = [CLAIM; ROW_FRAMES];
    let mut bytes = [0xFF; 8 * ROW_FRAMES];
    let mut lens = [8; ROW_FRAMES];
    let _ = fast_packet_rows(
        ENGINE,
        0,
        &first,
        &mut ids[1..],
        &mut bytes[8..],
        &mut lens[1..],
    );
    let _ = fast_packet_rows(
        ENGINE,
        sequence,
        &second,
        &mut ids[5..],
        &mut bytes[40..],
        &mut lens[5..],
    );
    Sent { ids, bytes, lens }
}

fn sent_frames(first: [u8; 26], sequence: u8, second: [u8; 26]) -> [Frame; ROW_FRAMES] {
    let mut row = blank_row();
    row[0] = Frame {
        id: CLAIM,
        data: [0xFF; 8],
        len: 8,
    };
    let _ = fast_packet_frames(ENGINE, 0, &first, &mut row[1..]);
    let _ = fast_packet_frames(ENGINE, sequence, &second, &mut row[5..]);
    row
}

// Two records in slices and then as frames: hours 7 with this odd byte, and these hours with this sequence.
fn check_two<W: Write>(
    out: &mut W,
    words: &str,
    odd: u8,
    sequence: u8,
    hours: u8,
    expected: usize,
    base: u32,
) -> io::Result<()> {
    let first = record(7, odd);
    let second = record(hours, 0);
    let sent = sent_slices(first, sequence, second);
    let slices = SliceRow {
        ids: &sent.ids,
        bytes: &sent.bytes,
        lens: &sent.lens,
    };
    write!(out, "{words}: ")?;
    show_checked(out, check_tx_row(slices, SOURCE, expected, base))?;
    let row = sent_frames(first, sequence, second);
    write!(out, "  as frames: ")?;
    show_checked(out, check_tx(&row[..], SOURCE, expected, base))
}

fn counts<W: Write>(out: &mut W) -> io::Result<()> {
    check_two(out, "two records as they should be", 0, 1, 8, 2, 7)?;
    check_two(out, "count 0", 0, 1, 8, 0, 7)?;
    check_two(out, "base 4294967295, count 2", 0, 1, 8, 2, u32::MAX)
}

fn claims<W: Write>(out: &mut W) -> io::Result<()> {
    for (words, id) in [("no claim", ENGINE), ("a claim alone", CLAIM)] {
        let slices = SliceRow {
            ids: &[id],
            bytes: &[0xFF; 8],
            lens: &[8],
        };
        check(out, words, slices, 1, 0)?;
    }
    let slices = SliceRow {
        ids: &[CLAIM, ENGINE],
        bytes: b"\xFF\xFF\xFF\xFF\xFF\xFF\xFF\xFF\x00\x01\x00\xFF\xFF\xFF\xFF\xFF",
        lens: &[8, 8],
    };
    check(out, "a message of one byte", slices, 1, 0)
}

fn contents<W: Write>(out: &mut W) -> io::Result<()> {
    check_two(out, "hours 9 where 8 is expected", 0, 1, 9, 2, 7)?;
    check_two(out, "a byte off the pattern", 1, 1, 8, 2, 7)?;
    check_two(out, "the same sequence twice", 0, 0, 8, 2, 7)
}

pub(crate) fn transmit_refusals<W: Write>(out: &mut W) -> io::Result<()> {
    counts(out)?;
    claims(out)?;
    contents(out)
}
