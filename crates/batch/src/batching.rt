// The batch call.
ghost use Rattle.std.specs.Prelude.{◌≡◌, not, ◌||◌, length};
ghost use Rattle.session.specs.declared.PoolKind.TheVariants.{Original};
ghost use Rattle.session.specs.inner.Search.{found_in};
ghost use Rattle.session.specs.Rules.{rules_by};
ghost use Rattle.assembler.specs.Promises.{same_kind};
ghost use Rattle.batch.specs.Lengths.{too_short};
ghost use Rattle.batch.specs.Rows.{Batches};
ghost use Rattle.batch.specs.inner.Ways.{blank_heard, refusal_of};

use crate::bytes::{carry, deliver, keep};
use crate::list_memory::ListMemory;
use crate::mirror::Mirror;
use crate::room::no_room;
use crate::rows::FrameRows;
use crate::ways::{missed, ran_on, runs_on, short_in};
use crate::{Batch, BatchError, Taken};
use assembler::Pool;
use session::{Counter, Counters, Kind, PoolKind, count, decide};

// Whether the pool is refused whatever the rows hold: it is impossible, or one that is handed identifiers.
fn is_unheard(pool: &Pool) -> bool
    ensures { result ≡ (not (same_kind Original pool.now.kind) || (found_in (rules_by pool.now.kind pool.now.mode) blank_heard pool.now.size pool.now.heads).bad) }
{
    (pool.kind != PoolKind::Original) | pool.is_impossible()
}

// The refusal, if there is one: of the pool before that of a row that is too short.
#[tactic(auto, using(crate::proofs::RowLaws::refused_bad, crate::proofs::RowLaws::refused_short, crate::proofs::RowLaws::refused_none))]
fn refusal(pool: &Pool, frames: FrameRows, kinds: usize, lengths: usize) -> Result<(), BatchError>
    ensures { result ≡ refusal_of (not (same_kind Original pool.now.kind) || (found_in (rules_by pool.now.kind pool.now.mode) blank_heard pool.now.size pool.now.heads).bad) (too_short (length frames.entry.times.now) (length frames.entry.pgns.now) (length frames.entry.sources.now) (length frames.entry.«data».now) kinds lengths) }
{
    if is_unheard(pool) {
        return Err(BatchError::ImpossiblePool);
    }
    if frames.too_short(kinds, lengths) {
        return Err(BatchError::NoRoom);
    }
    Ok(())
}

// Takes frames one after the other, as long as the arena has room for their messages. A kind is told by its number, since C lends the rows of the answers.
pub fn process_frames(
    mut pool: Pool,
    counters: Counters,
    pgns: &[u32],
    frames: FrameRows,
    kinds: &mut [u8],
    lengths: &mut [u8],
    arena: &mut [u8],
) -> Batch
    ensures { Batches pgns.now frames.entry.times.now frames.entry.pgns.now frames.entry.sources.now frames.entry.«data».now pool counters
        kinds.old lengths.old arena.old result kinds.new lengths.new arena.new }
{
    if let Err(error) = refusal(&pool, frames, kinds.len(), lengths.len()) {
        return Batch {
            result: Err(error),
            counters,
            pool,
        };
    }
    // no frame changes the mode
    let mode = pool.mode;
    // what is searched in stands beside the heads, and what the list said is remembered
    let mut mirror = Mirror::of(pool.heads, pool.size);
    let mut list = ListMemory::of(pgns);
    let mut c = counters;
    let mut used = 0;
    let n = frames.times.len();
    for i in 0..n {
        // most frames of a bus: nothing is looked for, and nothing more of the rows is read
        if !list.has(frames.pgns[i]) {
            c = count(c, Some(Counter::Unknown));
            kinds[i] = Kind::NotListed.number();
            lengths[i] = 0;
            continue;
        }
        let heard = frames.frame_at(i);
        let Some(g) = mirror.seek(mode, heard) else {
            // a frame that takes no slot leaves the pool as it is
            let short = short_in(heard);
            if short == 0 {
                let (kind, mark) = missed(heard);
                c = count(c, mark);
                kinds[i] = kind.number();
                lengths[i] = 0;
                continue;
            }
            if no_room(arena.len(), used, short) {
                let taken = Taken {
                    frames: i,
                    bytes: used,
                };
                return Batch {
                    result: Ok(taken),
                    counters: c,
                    pool,
                };
            }
            deliver(arena, used, heard.data, short);
            kinds[i] = Kind::MessageComplete.number();
            lengths[i] = short as u8;
            used += short;
            continue;
        };
        let h = pool.heads[g];
        // nearly every frame of a longer message: seven bytes more, and the message is not there yet
        if runs_on(h, heard) {
            pool.heads[g] = ran_on(h, heard);
            mirror.hear(g, heard.now_ms);
            keep(&mut pool.bytes, g, h.current_size, heard.data);
            kinds[i] = Kind::FragmentConsumed.number();
            lengths[i] = 0;
            continue;
        }
        let d = decide(mode, false, true, true, h, heard);
        if no_room(arena.len(), used, d.whole) {
            let taken = Taken {
                frames: i,
                bytes: used,
            };
            return Batch {
                result: Ok(taken),
                counters: c,
                pool,
            };
        }
        carry(&mut pool.bytes, arena, g, used, d, heard.data);
        c = count(c, d.mark);
        kinds[i] = d.kind.number();
        lengths[i] = d.whole as u8;
        used += d.whole;
        pool.heads[g] = d.head;
        mirror.show(g, d.head);
    }
    let taken = Taken {
        frames: n,
        bytes: used,
    };
    Batch {
        result: Ok(taken),
        counters: c,
        pool,
    }
}
