// Pools whose key has the destination, by document 02's No. 12: each case on a pool of two slots, by value and with the counters lent, without and with a
// length; and what a pool of the original's kind answers, in a batch too. The part of each slot's key is told.
use crate::batching;
use crate::held::{Held, tell_message};
use crate::receiving::{self, made};
use assembler::{Arrival, ArrivalById, Arrive, WithLength};
use can_id::CanId;
use session::{Mode, PoolKind};
use std::io::{self, Write};

const ANSWER: u32 = 126208;

const ENGINE: u32 = 127489;

const CLAIM: u32 = 60928;

// Identifiers from source 35: PGN 126208 to 16, to 17 and to 255; PGN 127489; and PGN 60928, which is not listed.
const TO_16: u32 = 0x0DED_1023;

const TO_17: u32 = 0x0DED_1123;

const TO_255: u32 = 0x0DED_FF23;

const TO_ALL: u32 = 0x19F2_0123;

const UNLISTED: u32 = 0x18EE_FF23;

// PGN 126208 to 16 from source 36.
const FROM_36: u32 = 0x0DED_1024;

const LAST: u32 = 0x1FFF_FFFF;

const TOO_WIDE: u32 = 0x2000_0000;

const LISTED: [u32; 2] = [ANSWER, ENGINE];

// ---- frames: messages of seven bytes, all of them `mark`, in two frames

fn data_of(index: u8, mark: u8) -> [u8; 8] {
    if index == 0 {
        [0, 7, mark, mark, mark, mark, mark, mark]
    } else {
        [index, mark, 255, 255, 255, 255, 255, 255]
    }
}

fn frame(id: u32, index: u8, mark: u8) -> ArrivalById {
    ArrivalById {
        now_ms: 0,
        id: CanId(id),
        data: data_of(index, mark),
    }
}

// The same frame, from source 35, for a pool that is handed PGN and source.
fn plain(pgn: u32, index: u8, mark: u8) -> Arrival {
    Arrival {
        now_ms: 0,
        pgn,
        source_address: 35,
        data: data_of(index, mark),
    }
}

// ---- calls

fn fresh(kind: PoolKind) -> Held {
    Held::new(made(2, Mode::AsOriginal, kind))
}

// By value, and with the counters lent; what is held after the first of the two.
fn both_ways<W: Write, A: Arrive + Copy>(out: &mut W, held: Held, arrival: A) -> io::Result<Held> {
    let mut by_value = held;
    let answer = by_value.hear(&LISTED, arrival);
    let payload = &answer.payload;
    receiving::show_kind(out, answer.kind)?;
    tell_message(out, answer.length, payload[0], payload[6])?;
    by_value.show_with_parts(out)?;
    write!(out, "  lent: ")?;
    let mut lent = held;
    let answer = lent.hear_lent(&LISTED, arrival);
    let payload = &answer.payload;
    receiving::show_kind(out, answer.kind)?;
    tell_message(out, answer.length, payload[0], payload[6])?;
    lent.show_with_parts(out)?;
    Ok(by_value)
}

// Without a length, and the same frame at length 8.
fn each_way<W: Write, A: Arrive + Copy, B: Arrive + Copy>(
    out: &mut W,
    words: &str,
    held: Held,
    arrival: A,
    at_eight: B,
) -> io::Result<Held> {
    write!(out, "{words}: ")?;
    let after = both_ways(out, held, arrival)?;
    write!(out, "  at length 8: ")?;
    both_ways(out, held, at_eight)?;
    Ok(after)
}

// At the entry that is handed the identifier.
fn by_id<W: Write>(out: &mut W, words: &str, held: Held, arrival: ArrivalById) -> io::Result<Held> {
    each_way(out, words, held, arrival, WithLength { arrival, length: 8 })
}

// At the entry that is handed PGN and source, and in a batch.
fn by_pgn<W: Write>(out: &mut W, words: &str, held: Held, arrival: Arrival) -> io::Result<Held> {
    let after = each_way(out, words, held, arrival, WithLength { arrival, length: 8 })?;
    batching::show_with_parts(out, held, arrival)?;
    Ok(after)
}

// ---- the entries

fn addressed_of_size_33() -> Held {
    let mut held = fresh(PoolKind::Addressed);
    held.pool.size = 33;
    held
}

fn original_by_id<W: Write>(out: &mut W, words: &str, id: u32) -> io::Result<()> {
    by_id(out, words, fresh(PoolKind::Original), frame(id, 0, 16))?;
    Ok(())
}

fn addressed_by_pgn<W: Write>(out: &mut W, words: &str, pgn: u32) -> io::Result<()> {
    by_pgn(out, words, fresh(PoolKind::Addressed), plain(pgn, 0, 16))?;
    Ok(())
}

// An identifier that is too wide is refused before the pool is looked at, and a pool at the other kind's entry before the list is.
pub(crate) fn entries<W: Write>(out: &mut W) -> io::Result<()> {
    by_id(
        out,
        "addressed, of size 33, identifier 0x20000000",
        addressed_of_size_33(),
        frame(TOO_WIDE, 0, 16),
    )?;
    by_id(
        out,
        "addressed, of size 33, identifier 0x1FFFFFFF",
        addressed_of_size_33(),
        frame(LAST, 0, 16),
    )?;
    by_id(
        out,
        "addressed, identifier 0x1FFFFFFF",
        fresh(PoolKind::Addressed),
        frame(LAST, 0, 16),
    )?;
    original_by_id(out, "original, by identifier 0x20000000", TOO_WIDE)?;
    original_by_id(out, "original, by the identifier of a listed PGN", TO_16)?;
    original_by_id(
        out,
        "original, by the identifier of an unlisted PGN",
        UNLISTED,
    )?;
    addressed_by_pgn(out, "addressed, by a listed PGN", ANSWER)?;
    addressed_by_pgn(out, "addressed, by an unlisted PGN", CLAIM)
}

// ---- one source, one PGN, one number, and two destinations

fn two_by_id<W: Write>(out: &mut W) -> io::Result<()> {
    let mut held = fresh(PoolKind::Addressed);
    held = by_id(out, "addressed, to 16, frame 0", held, frame(TO_16, 0, 16))?;
    held = by_id(out, "addressed, to 17, frame 0", held, frame(TO_17, 0, 17))?;
    write!(out, "addressed, to 16, frame 1 at length 1: ")?;
    let cut = WithLength {
        arrival: frame(TO_16, 1, 16),
        length: 1,
    };
    both_ways(out, held, cut)?;
    held = by_id(out, "addressed, to 16, frame 1", held, frame(TO_16, 1, 16))?;
    by_id(out, "addressed, to 17, frame 1", held, frame(TO_17, 1, 17))?;
    Ok(())
}

fn two_by_pgn<W: Write>(out: &mut W) -> io::Result<()> {
    let mut held = fresh(PoolKind::Original);
    held = by_pgn(out, "original, to 16, frame 0", held, plain(ANSWER, 0, 16))?;
    held = by_pgn(out, "original, to 17, frame 0", held, plain(ANSWER, 0, 17))?;
    held = by_pgn(out, "original, to 16, frame 1", held, plain(ANSWER, 1, 16))?;
    by_pgn(out, "original, to 17, frame 1", held, plain(ANSWER, 1, 17))?;
    Ok(())
}

pub(crate) fn two_displays<W: Write>(out: &mut W) -> io::Result<()> {
    two_by_id(out)?;
    two_by_pgn(out)
}

// ---- no destination

pub(crate) fn broadcasts<W: Write>(out: &mut W) -> io::Result<()> {
    let mut held = fresh(PoolKind::Addressed);
    held = by_id(
        out,
        "addressed, PGN 127489, frame 0",
        held,
        frame(TO_ALL, 0, 1),
    )?;
    by_id(
        out,
        "addressed, PGN 127489, frame 1",
        held,
        frame(TO_ALL, 1, 1),
    )?;
    held = fresh(PoolKind::Original);
    held = by_pgn(
        out,
        "original, PGN 127489, frame 0",
        held,
        plain(ENGINE, 0, 1),
    )?;
    by_pgn(
        out,
        "original, PGN 127489, frame 1",
        held,
        plain(ENGINE, 1, 1),
    )?;
    Ok(())
}

// ---- parts of slots

// Slot 0 is in progress, with this PGN and part.
fn held_by_id(pgn: u32, part: u16) -> Held {
    let mut held = fresh(PoolKind::Addressed);
    held.hear(&LISTED, frame(TO_16, 0, 16));
    held.pool.heads[0].pgn = pgn;
    held.pool.heads[0].part = part;
    Held::new(held.pool)
}

// A first frame of another source.
fn beside<W: Write>(out: &mut W, words: &str, pgn: u32, part: u16) -> io::Result<()> {
    write!(out, "addressed, {words} with part {part}")?;
    by_id(out, "", held_by_id(pgn, part), frame(FROM_36, 0, 16))?;
    Ok(())
}

fn parts_of_answers<W: Write>(out: &mut W) -> io::Result<()> {
    for part in [0, 1, 256, 257] {
        beside(out, "126208", ANSWER, part)?;
    }
    by_id(
        out,
        "addressed, 126208 with part 256, continued to 255",
        held_by_id(ANSWER, 256),
        frame(TO_255, 1, 16),
    )?;
    Ok(())
}

fn parts_by_pf<W: Write>(out: &mut W) -> io::Result<()> {
    let pgns = [
        ("127489", ENGINE),
        ("PF 239", 0x1_EF00),
        ("PF 240", 0x1_F000),
    ];
    for (words, pgn) in pgns {
        beside(out, words, pgn, 0)?;
        beside(out, words, pgn, 17)?;
    }
    Ok(())
}

// Slots 0 and 1 are in progress, slot 0 to 16, and slot 1 with this part.
fn held_twice(part: u16, size: usize) -> Held {
    let mut held = held_by_id(ANSWER, 17);
    held.pool.heads[1] = held.pool.heads[0];
    held.pool.heads[1].part = part;
    held.pool.size = size;
    held
}

// Both slots are idle; slot 1 was source 35's, and this is its part.
fn idle_by_id(part: u16) -> Held {
    let mut held = fresh(PoolKind::Addressed);
    held.pool.heads[1].source_address = 35;
    held.pool.heads[1].part = part;
    held
}

fn parts_not_looked_at<W: Write>(out: &mut W) -> io::Result<()> {
    by_id(
        out,
        "addressed, of size 2, slot 1 with part 257",
        held_twice(257, 2),
        frame(TO_16, 1, 16),
    )?;
    by_id(
        out,
        "addressed, of size 1, slot 1 with part 257",
        held_twice(257, 1),
        frame(TO_16, 1, 16),
    )?;
    by_id(
        out,
        "addressed, slot 1 idle with part 257, an unlisted PGN",
        idle_by_id(257),
        frame(UNLISTED, 0, 16),
    )?;
    by_id(
        out,
        "addressed, slot 1 idle with part 17, to 17",
        idle_by_id(17),
        frame(TO_17, 0, 17),
    )?;
    Ok(())
}

// Slot 0 was opened by source 35, and has part 17.
fn held_by_pgn(in_progress: bool, size: usize) -> Held {
    let mut held = fresh(PoolKind::Original);
    held.hear(&LISTED, plain(ANSWER, 0, 16));
    held.pool.heads[0].part = 17;
    held.pool.heads[0].in_progress = in_progress;
    held.pool.size = size;
    Held::new(held.pool)
}

fn parts_of_the_original<W: Write>(out: &mut W) -> io::Result<()> {
    by_pgn(
        out,
        "original, slot 0 in progress with part 17",
        held_by_pgn(true, 2),
        plain(ENGINE, 0, 16),
    )?;
    by_pgn(
        out,
        "original, slot 0 idle with part 17",
        held_by_pgn(false, 2),
        plain(ENGINE, 0, 16),
    )?;
    by_pgn(
        out,
        "original, of size 0, slot 0 in progress with part 17",
        held_by_pgn(true, 0),
        plain(ENGINE, 0, 16),
    )?;
    Ok(())
}

// The parts of slots in progress within the size are looked at, and no others.
pub(crate) fn parts<W: Write>(out: &mut W) -> io::Result<()> {
    parts_of_answers(out)?;
    parts_by_pf(out)?;
    parts_not_looked_at(out)?;
    parts_of_the_original(out)
}

// A reset keeps the source and no part.
pub(crate) fn resets<W: Write>(out: &mut W) -> io::Result<()> {
    by_id(
        out,
        "addressed, to 16, out of turn",
        held_by_id(ANSWER, 17),
        frame(TO_16, 2, 16),
    )?;
    Ok(())
}
