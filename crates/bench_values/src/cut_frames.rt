// A frame cut short, by document 02's No. 5: each case on a pool of one slot with room, by value and with the counters lent.
use crate::held::Held;
use crate::receiving::{self, made};
use assembler::{Arrival, WithLength};
use session::{Mode, PoolKind};
use std::io::{self, Write};

const PGN: u32 = 127489;

// The frame's sequence is 0; of its eight bytes the first `length` were sent.
fn frame(index: u8, next: u8, length: usize) -> WithLength<Arrival> {
    WithLength {
        arrival: receiving::frame(0, 35, index, next),
        length,
    }
}

fn show<W: Write>(
    out: &mut W,
    words: &str,
    held: Held,
    arrival: WithLength<Arrival>,
) -> io::Result<()> {
    write!(out, "{words}: ")?;
    let mut by_value = held;
    let answer = by_value.hear(&[PGN], arrival);
    receiving::show_kind(out, answer.kind)?;
    by_value.show(out, answer.length)?;
    write!(out, "  lent: ")?;
    let mut lent = held;
    let answer = lent.hear_lent(&[PGN], arrival);
    receiving::show_kind(out, answer.kind)?;
    lent.show(out, answer.length)
}

fn fresh() -> Held {
    Held::new(made(1, Mode::AsOriginal, PoolKind::Original))
}

fn on_a_fresh_pool<W: Write>(
    out: &mut W,
    words: &str,
    arrival: WithLength<Arrival>,
) -> io::Result<()> {
    show(out, words, fresh(), arrival)
}

// After a first frame that announces so many bytes.
fn after_a_first_frame<W: Write>(
    out: &mut W,
    words: &str,
    announced: u8,
    arrival: WithLength<Arrival>,
) -> io::Result<()> {
    let mut held = fresh();
    held.hear(&[PGN], frame(0, announced, 8));
    show(out, words, held, arrival)
}

pub(crate) fn first_frames<W: Write>(out: &mut W) -> io::Result<()> {
    on_a_fresh_pool(out, "00 07 at length 0", frame(0, 7, 0))?;
    on_a_fresh_pool(out, "01 07 at length 0", frame(1, 7, 0))?;
    on_a_fresh_pool(out, "00 07 at length 1", frame(0, 7, 1))?;
    on_a_fresh_pool(out, "00 07 at length 7", frame(0, 7, 7))?;
    on_a_fresh_pool(out, "00 07 at length 8", frame(0, 7, 8))?;
    on_a_fresh_pool(out, "00 03 at length 4", frame(0, 3, 4))?;
    on_a_fresh_pool(out, "00 03 at length 5", frame(0, 3, 5))?;
    on_a_fresh_pool(out, "00 E0 at length 8", frame(0, 224, 8))?;
    on_a_fresh_pool(out, "00 E0 at length 2", frame(0, 224, 2))
}

pub(crate) fn continuations<W: Write>(out: &mut W) -> io::Result<()> {
    after_a_first_frame(out, "14 announced, 01 at length 7", 14, frame(1, 7, 7))?;
    after_a_first_frame(out, "14 announced, 01 at length 8", 14, frame(1, 7, 8))?;
    after_a_first_frame(out, "8 announced, 01 at length 2", 8, frame(1, 7, 2))?;
    after_a_first_frame(out, "8 announced, 01 at length 3", 8, frame(1, 7, 3))?;
    after_a_first_frame(out, "8 announced, 02 at length 1", 8, frame(2, 7, 1))?;
    on_a_fresh_pool(out, "01 at length 1, no session", frame(1, 7, 1))
}
