// A clock that was set back, by document 02's No. 10: each case on a pool of one slot, in both modes, by the single call and in a batch. The slot's time is told
// too.
use crate::batching;
use crate::held::Held;
use crate::receiving::{self, frame, made};
use assembler::Arrival;
use session::{Mode, PoolKind};
use std::io::{self, Write};

const PGN: u32 = 127489;

// A pool of one slot, which source 35 has taken at this time: fourteen bytes are announced, eight are missing.
fn taken(mode: Mode, now_ms: u64) -> Held {
    let mut held = Held::new(made(1, mode, PoolKind::Original));
    held.hear(&[PGN], frame(now_ms, 35, 0, 14));
    held
}

fn show<W: Write>(out: &mut W, held: &mut Held, arrival: Arrival) -> io::Result<()> {
    let before = *held;
    let answer = held.hear(&[PGN], arrival);
    receiving::show_kind(out, answer.kind)?;
    held.show_with_time(out, answer.length)?;
    batching::show_with_time(out, before, arrival)
}

fn heard<W: Write>(out: &mut W, mode: Mode, last_ms: u64, arrival: Arrival) -> io::Result<Held> {
    write!(out, "  ")?;
    receiving::show_mode(out, mode)?;
    write!(out, ": ")?;
    let mut held = taken(mode, last_ms);
    show(out, &mut held, arrival)?;
    Ok(held)
}

fn in_both_modes<W: Write>(
    out: &mut W,
    last_ms: u64,
    words: &str,
    arrival: Arrival,
) -> io::Result<()> {
    writeln!(out, "last heard at {last_ms}, {words}")?;
    heard(out, Mode::AsOriginal, last_ms, arrival)?;
    heard(out, Mode::SetBackIsSilence, last_ms, arrival)?;
    Ok(())
}

pub(crate) fn continuations<W: Write>(out: &mut W) -> io::Result<()> {
    in_both_modes(out, 1000, "continued at 999", frame(999, 35, 1, 7))?;
    in_both_modes(out, 1000, "continued at 1000", frame(1000, 35, 1, 7))?;
    in_both_modes(out, 1000, "continued at 1500", frame(1500, 35, 1, 7))?;
    in_both_modes(out, 1000, "continued at 1501", frame(1501, 35, 1, 7))?;
    in_both_modes(out, 1000, "continued at 0", frame(0, 35, 1, 7))
}

pub(crate) fn first_frames<W: Write>(out: &mut W) -> io::Result<()> {
    in_both_modes(out, 1000, "begun again at 999", frame(999, 35, 0, 14))?;
    in_both_modes(out, 1000, "begun again at 1000", frame(1000, 35, 0, 14))?;
    in_both_modes(out, 1000, "another key at 999", frame(999, 36, 0, 14))?;
    in_both_modes(out, 1000, "another key at 1000", frame(1000, 36, 0, 14))
}

const LAST: u64 = u64::MAX;

pub(crate) fn ends_of_the_clock<W: Write>(out: &mut W) -> io::Result<()> {
    in_both_modes(
        out,
        0,
        "continued at the last reading",
        frame(LAST, 35, 1, 7),
    )?;
    in_both_modes(out, LAST, "continued at 0", frame(0, 35, 1, 7))?;
    in_both_modes(
        out,
        0,
        "another key at the last reading",
        frame(LAST, 36, 0, 14),
    )?;
    in_both_modes(out, LAST, "another key at 0", frame(0, 36, 0, 14))
}

// A reset keeps the time, and the slot is free all the same; none has expired there.
fn idle_slot<W: Write>(out: &mut W, mode: Mode) -> io::Result<()> {
    let mut held = heard(out, mode, 1000, frame(1200, 35, 2, 7))?;
    write!(out, "  and another key at 0: ")?;
    show(out, &mut held, frame(0, 36, 0, 14))
}

pub(crate) fn idle_slots<W: Write>(out: &mut W) -> io::Result<()> {
    writeln!(out, "last heard at 1000, out of turn at 1200")?;
    idle_slot(out, Mode::AsOriginal)?;
    idle_slot(out, Mode::SetBackIsSilence)
}
