// Receiving: what a frame is answered, and what it leaves, by the single call and in a batch; and refusal 1.
use crate::batching;
use crate::held::Held;
use assembler::{Arrival, ImpossiblePool, Pool};
use session::{Kind, Mode, PoolKind};
use std::io::{self, Write};

const PGN: u32 = 127489;

// A frame of sequence 0; of a first frame, index 0, the byte after it is the announced size.
pub(crate) fn frame(now_ms: u64, source_address: u8, index: u8, next: u8) -> Arrival {
    Arrival {
        now_ms,
        pgn: PGN,
        source_address,
        data: [index, next, 1, 2, 3, 4, 5, 6],
    }
}

fn unlisted_frame() -> Arrival {
    Arrival {
        pgn: 60928,
        ..frame(0, 36, 0, 7)
    }
}

// A kind by its name, or a refusal by its number.
pub(crate) fn show_kind<W: Write>(out: &mut W, kind: Kind) -> io::Result<()> {
    match kind {
        Kind::ImpossiblePool | Kind::TooWide => write!(out, "refusal {}", kind.number()),
        _ => write!(out, "{kind:?}"),
    }
}

fn show<W: Write>(out: &mut W, held: Held, arrival: Arrival) -> io::Result<()> {
    let mut by_value = held;
    let answer = by_value.hear(&[PGN], arrival);
    show_kind(out, answer.kind)?;
    by_value.show(out, answer.length)?;
    batching::show(out, held, arrival)
}

// A pool of one slot, which source 35 has taken at 0: seven bytes are announced, one is missing.
fn taken() -> Held {
    let mut held = Held::new(made(1, Mode::AsOriginal, PoolKind::Original));
    held.hear(&[PGN], frame(0, 35, 0, 7));
    held
}

fn heard_by_one<W: Write>(out: &mut W, words: &str, arrival: Arrival) -> io::Result<()> {
    write!(out, "{words}: ")?;
    show(out, taken(), arrival)
}

// One slot, another key's message silent 500, and 501.
pub(crate) fn one_slot<W: Write>(out: &mut W) -> io::Result<()> {
    heard_by_one(out, "one slot, silent 500", frame(500, 36, 0, 7))?;
    heard_by_one(out, "one slot, silent 501", frame(501, 36, 0, 7))
}

// With no slot free only a message that needs one finds the pool full.
pub(crate) fn full_pool<W: Write>(out: &mut W) -> io::Result<()> {
    heard_by_one(out, "no slot free, an unlisted PGN", unlisted_frame())?;
    for announced in [0, 1, 6, 7, 223, 224] {
        write!(out, "no slot free, announced {announced}: ")?;
        show(out, taken(), frame(0, 36, 0, announced))?;
    }
    Ok(())
}

// A continuation that is lost leaves its slot, unless it is out of turn.
pub(crate) fn continuations<W: Write>(out: &mut W) -> io::Result<()> {
    heard_by_one(out, "a continuation of another source", frame(0, 36, 1, 7))?;
    heard_by_one(out, "a continuation out of turn", frame(0, 35, 2, 7))?;
    heard_by_one(out, "a continuation after 500 ms", frame(500, 35, 1, 7))?;
    heard_by_one(out, "a continuation after 501 ms", frame(501, 35, 1, 7))
}

// ---- making a pool

// The pool that is made, or the fresh one of size 0 beside the refusal.
pub(crate) fn pool_of(made: Result<Pool, ImpossiblePool>) -> Pool {
    made.unwrap_or_else(|refused| refused.pool)
}

pub(crate) fn made(size: usize, mode: Mode, kind: PoolKind) -> Pool {
    pool_of(Pool::with_kind(size, mode, kind))
}

fn show_made<W: Write>(
    out: &mut W,
    words: &str,
    made: Result<Pool, ImpossiblePool>,
) -> io::Result<Pool> {
    write!(out, "{words}: ")?;
    match made {
        Ok(_) => write!(out, "fresh")?,
        Err(_) => write!(out, "refusal 1")?,
    }
    let pool = pool_of(made);
    write!(out, ", size {}", pool.size)?;
    Ok(pool)
}

fn mode_words(mode: Mode) -> &'static str {
    match mode {
        Mode::AsOriginal => "as the original",
        Mode::SetBackIsSilence => "set back is silence",
    }
}

pub(crate) fn show_mode<W: Write>(out: &mut W, mode: Mode) -> io::Result<()> {
    write!(out, "{}", mode_words(mode))
}

fn kind_words(kind: PoolKind) -> &'static str {
    match kind {
        PoolKind::Original => "key without destination",
        PoolKind::Addressed => "key with destination",
    }
}

fn made_as_original<W: Write>(out: &mut W, words: &str, size: usize) -> io::Result<()> {
    show_made(out, words, Pool::new(size))?;
    writeln!(out)
}

fn made_in_a_mode<W: Write>(out: &mut W, words: &str, size: usize, mode: Mode) -> io::Result<()> {
    let pool = show_made(out, words, Pool::with_mode(size, mode))?;
    writeln!(out, ", {}", mode_words(pool.mode))
}

fn made_of_a_kind<W: Write>(
    out: &mut W,
    words: &str,
    size: usize,
    mode: Mode,
    kind: PoolKind,
) -> io::Result<()> {
    let pool = show_made(out, words, Pool::with_kind(size, mode, kind))?;
    writeln!(
        out,
        ", {}, {}",
        mode_words(pool.mode),
        kind_words(pool.kind)
    )
}

fn made_of_each_kind<W: Write>(out: &mut W, words: &str, size: usize) -> io::Result<()> {
    for mode in [Mode::AsOriginal, Mode::SetBackIsSilence] {
        for kind in [PoolKind::Original, PoolKind::Addressed] {
            made_of_a_kind(out, words, size, mode, kind)?;
        }
    }
    Ok(())
}

pub(crate) fn pools_made<W: Write>(out: &mut W) -> io::Result<()> {
    made_as_original(out, "a pool of 32", 32)?;
    made_as_original(out, "a pool of 33", 33)?;
    made_in_a_mode(out, "a pool of 32 in a mode", 32, Mode::AsOriginal)?;
    made_in_a_mode(out, "a pool of 32 in a mode", 32, Mode::SetBackIsSilence)?;
    made_in_a_mode(out, "a pool of 33 in a mode", 33, Mode::AsOriginal)?;
    made_in_a_mode(out, "a pool of 33 in a mode", 33, Mode::SetBackIsSilence)?;
    made_of_each_kind(out, "a pool of 32 of a kind", 32)?;
    made_of_each_kind(out, "a pool of 33 of a kind", 33)
}

// ---- refusal 1

fn heard_by_size<W: Write>(
    out: &mut W,
    words: &str,
    size: usize,
    arrival: Arrival,
) -> io::Result<()> {
    write!(out, "{words} for a pool of size {size}: ")?;
    let mut pool = Pool::default();
    pool.size = size;
    show(out, Held::new(pool), arrival)
}

// An impossible pool is refused before the frame is looked at.
pub(crate) fn refusals<W: Write>(out: &mut W) -> io::Result<()> {
    heard_by_size(out, "a first frame", 32, frame(0, 35, 0, 7))?;
    heard_by_size(out, "a first frame", 33, frame(0, 35, 0, 7))?;
    heard_by_size(out, "an unlisted PGN", 33, unlisted_frame())?;
    heard_by_size(out, "six bytes", 33, frame(0, 35, 0, 6))?;
    write!(out, "an unlisted PGN for a slot with sequence 8: ")?;
    let mut held = taken();
    held.pool.heads[0].sequence_id = 8;
    show(out, held, unlisted_frame())
}
