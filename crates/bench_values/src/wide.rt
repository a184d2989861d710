// Identifiers that are too wide, by document 02's No. 4: read, in a row of frames, and handed to the splitter. What was lent stays as it was, which the
// numbers after the answer tell.
use crate::bench_calls::{self, CLAIM, ENGINE};
use can_id::CanId;
use oracle::SliceRow;
use std::io::{self, Write};

// PGN 127489 from source 35 and from source 36, and an address claim from 35, with flags above bit 28.
const WIDE: u32 = 0x99F2_0123;

const WIDE_OTHER: u32 = 0x39F2_0124;

const WIDE_CLAIM: u32 = 0x58EE_FF23;

fn read<W: Write>(out: &mut W, id: u32) -> io::Result<()> {
    write!(out, "identifier 0x{id:08X}: ")?;
    match CanId(id).read() {
        Ok(parts) => {
            write!(out, "priority {}, PGN {}", parts.priority, parts.pgn)?;
            writeln!(out, ", from {}", parts.source_address)
        }
        Err(error) => writeln!(out, "refusal {}", error.number()),
    }
}

// Six frames, each a message of one byte; then the first number of the list and the first byte of the arena.
fn judge<W: Write>(
    out: &mut W,
    words: &str,
    ids: &[u32; 6],
    lens: &[usize; 6],
    list: &mut [usize],
    arena: &mut [u8],
) -> io::Result<()> {
    let slices = SliceRow {
        ids,
        bytes: b"\x00\x01a\xFF\xFF\xFF\xFF\xFF\x00\x01b\xFF\xFF\xFF\xFF\xFF\x00\x01c\xFF\xFF\xFF\xFF\xFF\x00\x01d\xFF\xFF\xFF\xFF\xFF\x00\x01e\xFF\xFF\xFF\xFF\xFF\x00\x01f\xFF\xFF\xFF\xFF\xFF",
        lens,
    };
    bench_calls::judge(out, words, slices, list, arena)?;
    left(
        out,
        list.first().copied().unwrap_or(0),
        arena.first().copied().unwrap_or(0),
    )
}

fn left<W: Write>(out: &mut W, number: usize, byte: u8) -> io::Result<()> {
    writeln!(out, "  left: {number} {byte}")
}

// Into a list and an arena, with room or not, where 9 stands at every place.
fn rows<W: Write>(out: &mut W) -> io::Result<()> {
    judge(
        out,
        "frame 2 of length 7, frame 5 too wide",
        &[ENGINE, ENGINE, ENGINE, ENGINE, ENGINE, WIDE],
        &[8, 8, 7, 8, 8, 8],
        &mut [9; 18],
        &mut [9; 6],
    )?;
    judge(
        out,
        "frame 0 of another source and too wide, all else good",
        &[WIDE_OTHER, ENGINE, ENGINE, ENGINE, ENGINE, ENGINE],
        &[8; 6],
        &mut [9; 18],
        &mut [9; 6],
    )
}

fn room<W: Write>(out: &mut W) -> io::Result<()> {
    let ids = [ENGINE, ENGINE, ENGINE, ENGINE, ENGINE, WIDE];
    judge(
        out,
        "frame 5 too wide, and a list of two numbers",
        &ids,
        &[8; 6],
        &mut [9; 2],
        &mut [9; 6],
    )?;
    judge(
        out,
        "frame 5 too wide, and an arena of four bytes",
        &ids,
        &[8; 6],
        &mut [9; 18],
        &mut [9; 4],
    )
}

// A claim's bytes, and then a message of one byte.
fn check<W: Write>(
    out: &mut W,
    words: &str,
    ids: &[u32; 2],
    expected: usize,
    base: u32,
) -> io::Result<()> {
    let slices = SliceRow {
        ids,
        bytes: b"\xFF\xFF\xFF\xFF\xFF\xFF\xFF\xFF\x00\x01\x00\xFF\xFF\xFF\xFF\xFF",
        lens: &[8, 8],
    };
    bench_calls::check(out, words, slices, expected, base)
}

fn checks<W: Write>(out: &mut W) -> io::Result<()> {
    check(out, "count 0, and too wide", &[CLAIM, WIDE], 0, 0)?;
    check(
        out,
        "base 4294967295, count 2, and too wide",
        &[CLAIM, WIDE],
        2,
        u32::MAX,
    )?;
    check(out, "no claim, and too wide", &[ENGINE, WIDE], 1, 0)?;
    check(out, "a claim that is too wide", &[WIDE_CLAIM, ENGINE], 1, 0)
}

fn split<W: Write>(out: &mut W, words: &str, sequence: u8, payload: &[u8]) -> io::Result<()> {
    let (length, byte) = bench_calls::split(out, words, WIDE, sequence, payload)?;
    left(out, length, byte)
}

fn splits<W: Write>(out: &mut W) -> io::Result<()> {
    split(out, "splitting nothing, and too wide", 0, b"")?;
    split(out, "sequence 8, and too wide", 8, b"1234567")?;
    split(out, "seven bytes, and too wide", 0, b"1234567")?;
    split(
        out,
        "63 bytes into nine frames, and too wide",
        0,
        b"123456789012345678901234567890123456789012345678901234567890123",
    )
}

pub(crate) fn refusals<W: Write>(out: &mut W) -> io::Result<()> {
    read(out, 0x1FFF_FFFF)?;
    read(out, 0x2000_0000)?;
    rows(out)?;
    room(out)?;
    checks(out)?;
    splits(out)
}
