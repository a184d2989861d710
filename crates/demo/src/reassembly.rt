// Engine hours reassembled: an old half message, a frame cut short, a full pool, a clock set back, and frames that are not taken.
use crate::engine::{self, Hours, Record};
use crate::gateway::{Both, Gateway};
use assembler::{Arrival, Arrive, WithLength};
use session::{Kind, Mode, PoolKind};
use std::io::{self, Write};
use std::ops::Range;

fn started(size: usize) -> Gateway {
    Gateway::new(size, Mode::AsOriginal, PoolKind::Original)
}

// One frame is heard; a delivered message is told by its hours.
fn answer<W: Write, A: Arrive>(out: &mut W, gateway: &mut Gateway, arrival: A) -> io::Result<()> {
    let answer = gateway.hear(&[engine::PGN], arrival);
    gateway.tell_kind(out, answer.kind)?;
    if answer.kind == Kind::MessageComplete {
        write!(out, ": {}", Hours::of(&answer.payload))?;
    }
    Ok(())
}

fn show_frame<W: Write>(out: &mut W, now_ms: u64, record: Record, index: u8) -> io::Result<()> {
    write!(out, "  at {now_ms} ms from {}", record.source)?;
    write!(out, ", message {}, frame {index}: ", record.sequence)
}

// Frames of a record, ten milliseconds apart.
fn hear<W: Write>(
    out: &mut W,
    gateway: &mut Gateway,
    now_ms: u64,
    record: Record,
    indices: Range<u8>,
) -> io::Result<()> {
    let mut now_ms = now_ms;
    for index in indices {
        show_frame(out, now_ms, record, index)?;
        answer(out, gateway, record.arrival(now_ms, index))?;
        writeln!(out)?;
        now_ms = now_ms.saturating_add(10);
    }
    Ok(())
}

fn show_counters<W: Write>(out: &mut W, gateway: &Gateway) -> io::Result<()> {
    write!(out, "  ")?;
    gateway.tell_counters(out)?;
    writeln!(out)
}

fn show_old_half<W: Write>(out: &mut W) -> io::Result<()> {
    let old = Record::new(35, 5, 0x12_FFF0);
    write!(out, "Half of a message is left open at {}", old.hours)?;
    writeln!(out, "; of the next with its number only the tail arrives")?;
    let mut g = started(4);
    hear(out, &mut g, 0, old, 0..2)?;
    hear(out, &mut g, 4020, Record::new(35, 5, 0x13_0000), 2..4)?;
    let joined = Hours(0x13_FFF0);
    writeln!(out, "  (joined, the two would have read {joined})")?;
    hear(out, &mut g, 4500, Record::new(35, 6, 0x13_0001), 0..4)?;
    hear(out, &mut g, 8000, Record::new(35, 5, 0x13_0004), 0..4)?;
    show_counters(out, &g)
}

// Of one frame only the first two bytes are heard.
fn hear_two_bytes<W: Write>(
    out: &mut W,
    gateway: &mut Gateway,
    now_ms: u64,
    record: Record,
    index: u8,
) -> io::Result<()> {
    show_frame(out, now_ms, record, index)?;
    write!(out, "two bytes of it: ")?;
    let cut = WithLength {
        arrival: record.arrival(now_ms, index),
        length: 2,
    };
    answer(out, gateway, cut)?;
    writeln!(out)
}

fn show_cut_frame<W: Write>(out: &mut W) -> io::Result<()> {
    writeln!(out, "A frame cut short within a message")?;
    let mut g = started(4);
    let record = Record::new(35, 0, 0x13_0001);
    hear(out, &mut g, 0, record, 0..1)?;
    hear_two_bytes(out, &mut g, 10, record, 1)?;
    hear(out, &mut g, 20, record, 2..4)?;
    let filled = Hours(0x13_FFFF);
    writeln!(
        out,
        "  (filled up with 0xFF, the message would have read {filled})"
    )?;
    hear(out, &mut g, 1000, Record::new(35, 1, 0x13_0002), 0..4)?;
    show_counters(out, &g)
}

fn show_full_pool<W: Write>(out: &mut W) -> io::Result<()> {
    writeln!(out, "A pool of one slot")?;
    let mut g = started(1);
    hear(out, &mut g, 0, Record::new(35, 0, 7200), 0..1)?;
    hear(out, &mut g, 500, Record::new(36, 0, 7200), 0..1)?;
    hear(out, &mut g, 501, Record::new(36, 0, 7200), 0..1)?;
    show_counters(out, &g)
}

// Frames of a record, each with the two answers side by side.
fn both_hear<W: Write>(
    out: &mut W,
    both: &mut Both,
    now_ms: u64,
    record: Record,
    indices: Range<u8>,
) -> io::Result<()> {
    let mut now_ms = now_ms;
    for index in indices {
        let arrival = record.arrival(now_ms, index);
        show_frame(out, now_ms, record, index)?;
        answer(out, &mut both.as_original, arrival)?;
        write!(out, " | ")?;
        answer(out, &mut both.otherwise, arrival)?;
        writeln!(out)?;
        now_ms = now_ms.saturating_add(10);
    }
    Ok(())
}

// The tail comes half an hour after the clock was set back.
fn show_clock_set_back<W: Write>(out: &mut W) -> io::Result<()> {
    write!(
        out,
        "The clock is set back by an hour after half of a message;"
    )?;
    writeln!(out, " of the next with its number only the tail arrives")?;
    writeln!(
        out,
        "  (as the original | where a clock that was set back is silence)"
    )?;
    let mut both = Both {
        as_original: started(4),
        otherwise: Gateway::new(4, Mode::SetBackIsSilence, PoolKind::Original),
    };
    let last = Record::new(35, 5, 0x13_0004);
    both_hear(out, &mut both, 7200000, Record::new(35, 5, 0x12_FFF0), 0..2)?;
    both_hear(out, &mut both, 5400000, Record::new(35, 5, 0x13_0000), 2..4)?;
    both_hear(out, &mut both, 5404000, last, 0..2)?;
    both_hear(out, &mut both, 5404020, last, 2..4)?;
    both.show_counters(out)
}

fn not_taken<W: Write>(
    out: &mut W,
    gateway: &mut Gateway,
    words: &str,
    arrival: Arrival,
) -> io::Result<()> {
    write!(out, "  {words}: ")?;
    answer(out, gateway, arrival)?;
    writeln!(out)
}

fn show_not_taken<W: Write>(out: &mut W) -> io::Result<()> {
    write!(
        out,
        "A frame that is not taken: the answer says why, and its counter goes up"
    )?;
    writeln!(out, " (a pool of one slot)")?;
    let mut g = started(1);
    let record = Record::new(35, 0, 7200);
    let other = Record::new(36, 0, 7200);
    hear(out, &mut g, 0, record, 0..1)?;
    let mut unlisted = other.arrival(10, 0);
    unlisted.pgn = 60928;
    let mut overlong = other.arrival(10, 0);
    overlong.data[1] = 224;
    not_taken(
        out,
        &mut g,
        "from 36, a PGN that is not in the list",
        unlisted,
    )?;
    not_taken(
        out,
        &mut g,
        "from 36, 224 bytes announced, one too many",
        overlong,
    )?;
    not_taken(
        out,
        &mut g,
        "from 36, a first frame, and no slot is free",
        other.arrival(10, 0),
    )?;
    not_taken(
        out,
        &mut g,
        "from 36, frame 1, and no message is open",
        other.arrival(10, 1),
    )?;
    not_taken(
        out,
        &mut g,
        "from 35, frame 2 where frame 1 is next",
        record.arrival(10, 2),
    )
}

pub(crate) fn show<W: Write>(out: &mut W) -> io::Result<()> {
    show_old_half(out)?;
    show_cut_frame(out)?;
    show_full_pool(out)?;
    show_clock_set_back(out)?;
    show_not_taken(out)
}
