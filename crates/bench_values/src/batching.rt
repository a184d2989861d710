// A batch of one frame, and the batch's own refusals.
use crate::held::{Held, tell_message};
use crate::receiving::{frame, made};
use assembler::{Arrival, Pool};
use batch::{Batch, BatchError, FrameRows, process_frames};
use session::{Kind, Mode, PoolKind};
use std::io::{self, Write};

const LISTED: [u32; 2] = [127489, 126208];

fn batch_of(
    held: Held,
    arrival: Arrival,
    kinds: &mut [u8],
    lengths: &mut [u8],
    arena: &mut [u8],
) -> Batch {
    let rows = FrameRows {
        times: &[arrival.now_ms],
        pgns: &[arrival.pgn],
        sources: &[arrival.source_address],
        data: &arrival.data,
    };
    process_frames(
        held.pool,
        held.counters,
        &LISTED,
        rows,
        kinds,
        lengths,
        arena,
    )
}

fn refusal_number(error: BatchError) -> u8 {
    match error {
        BatchError::ImpossiblePool => Kind::ImpossiblePool.number(),
        BatchError::NoRoom => 27,
    }
}

// What a batch of one frame leaves beside the answer, which is shown; of a message the first byte and the seventh.
#[derive(Clone, Copy)]
struct Answered {
    length: usize,
    first: u8,
    last: u8,
    held: Held,
}

fn heard_in_a_batch<W: Write>(out: &mut W, held: Held, arrival: Arrival) -> io::Result<Answered> {
    let mut kinds = [0; 1];
    let mut lengths = [0; 1];
    let mut arena = [0; 7];
    let batch = batch_of(held, arrival, &mut kinds, &mut lengths, &mut arena);
    match batch.result {
        Ok(_) => write!(out, "  in a batch: {}", kinds[0])?,
        Err(error) => write!(out, "  in a batch: refusal {}", refusal_number(error))?,
    }
    Ok(Answered {
        length: usize::from(lengths[0]),
        first: arena[0],
        last: arena[6],
        held: Held {
            pool: batch.pool,
            counters: batch.counters,
        },
    })
}

pub(crate) fn show<W: Write>(out: &mut W, held: Held, arrival: Arrival) -> io::Result<()> {
    let answered = heard_in_a_batch(out, held, arrival)?;
    answered.held.show(out, answered.length)
}

// The same with the slot's time.
pub(crate) fn show_with_time<W: Write>(
    out: &mut W,
    held: Held,
    arrival: Arrival,
) -> io::Result<()> {
    write!(out, "  ")?;
    let answered = heard_in_a_batch(out, held, arrival)?;
    answered.held.show_with_time(out, answered.length)
}

// The same with the message and the parts of two slots.
pub(crate) fn show_with_parts<W: Write>(
    out: &mut W,
    held: Held,
    arrival: Arrival,
) -> io::Result<()> {
    let answered = heard_in_a_batch(out, held, arrival)?;
    tell_message(out, answered.length, answered.first, answered.last)?;
    answered.held.show_with_parts(out)
}

fn without_kinds<W: Write>(out: &mut W, words: &str, pool: Pool) -> io::Result<()> {
    write!(out, "{words}: ")?;
    let mut lengths = [0; 1];
    let mut arena = [0; 7];
    let batch = batch_of(
        Held::new(pool),
        frame(0, 35, 0, 7),
        &mut [],
        &mut lengths,
        &mut arena,
    );
    match batch.result {
        Ok(_) => writeln!(out, "0"),
        Err(error) => writeln!(out, "refusal {}", refusal_number(error)),
    }
}

pub(crate) fn refusals<W: Write>(out: &mut W) -> io::Result<()> {
    let mut pool = Pool::default();
    without_kinds(out, "a batch with no row for its kinds", pool)?;
    pool.size = 33;
    without_kinds(out, "  and for a pool of size 33", pool)?;
    let addressed = made(4, Mode::AsOriginal, PoolKind::Addressed);
    without_kinds(out, "  and for an addressed pool", addressed)
}
