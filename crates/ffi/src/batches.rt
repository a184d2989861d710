// The batch: many frames in one call.
ghost use Rattle.std.specs.Prelude.{◌≡◌, [], ◌∷◌, Err};
ghost use Rattle.base.specs.Answer.{code_of};
ghost use Rattle.batch.specs.Rows.{of_batched, frames_in, bytes_in};
ghost use Rattle.ffi.specs.Batches.{FramesLeft};
ghost use Rattle.ffi.specs.inner.Batches.{PoolAfter};

use assembler::POOL_BYTES;
use batch::{Batch, BatchError, FrameRows, Taken, process_frames};
use numbers::{POOL_NUMBERS, counter_numbers, counters_from, pool_from, put_heads};
use session::Kind;

// The refusal of a row that is too short.
const NO_ROOM: u32 = 27;

#[tactic(auto, unfolding(batch::specs::Rows::of_batched, session::specs::Kinds::kind_number))]
fn refusal_number(error: BatchError) -> u32
    ensures { result ≡ code_of (of_batched (Err error)) }
{
    match error {
        BatchError::ImpossiblePool => u32::from(Kind::ImpossiblePool.number()),
        BatchError::NoRoom => NO_ROOM,
    }
}

// How many frames were taken, and how many bytes; none with a refusal.
#[tactic(auto, unfolding(batch::specs::Rows::frames_in, batch::specs::Rows::bytes_in))]
fn counts_of(res: Result<Taken, BatchError>) -> [u64; 2]
    ensures { result ≡ frames_in res ∷ bytes_in res ∷ [] }
{
    match res {
        Ok(taken) => [taken.frames as u64, taken.bytes as u64],
        Err(_) => [0, 0],
    }
}

fn leave_batch(
    r: Batch,
    heads: &mut [u64; POOL_NUMBERS],
    bytes: &mut [u8; POOL_BYTES],
    counters: &mut [u32; 5],
    counts: &mut [u64; 2],
) -> u32
    ensures { PoolAfter r heads.old result heads.new bytes.new counters.new counts.new }
{
    // an array goes through a variable on its way out of a struct, as the language has it
    let h = r.pool.heads;
    put_heads(heads, h);
    let b = r.pool.bytes;
    *bytes = b;
    let after = r.counters;
    *counters = counter_numbers(after);
    *counts = counts_of(r.result);
    match r.result {
        Ok(_) => 0,
        Err(error) => refusal_number(error),
    }
}

// 0, 1 or 27. Of each frame taken, `kinds` has 102 FragmentConsumed, 103 MessageComplete, 104 NotListed, 105 Rejected, 106 PoolFull or 107 Lost, and
// `lengths` the message's; the messages stand end to end from the arena's start. `counts` is how many frames were taken and how many bytes of the arena.
pub fn hf_raw_process_frames(
    size: usize,
    mode: u32,
    kind: u32,
    heads: &mut [u64; POOL_NUMBERS],
    bytes: &mut [u8; POOL_BYTES],
    counters: &mut [u32; 5],
    pgns: &[u32],
    times: &[u64],
    frame_pgns: &[u32],
    sources: &[u8],
    data: &[u8],
    kinds: &mut [u8],
    lengths: &mut [u8],
    arena: &mut [u8],
    counts: &mut [u64; 2],
) -> u32
    ensures { FramesLeft size mode kind pgns.now (record { times = times.now; pgns = frame_pgns.now; sources = sources.now; bytes = «data».now })
        (record { heads = heads.old; bytes = bytes.old; counters = counters.old; kinds = kinds.old; lengths = lengths.old; arena = arena.old; counts = counts.old })
        result (record { heads = heads.new; bytes = bytes.new; counters = counters.new; kinds = kinds.new; lengths = lengths.new; arena = arena.new; counts = counts.new }) }
{
    let p = pool_from(size, mode, kind, heads, bytes);
    let c = counters_from(counters);
    let frames = FrameRows {
        times,
        pgns: frame_pgns,
        sources,
        data,
    };
    let r = process_frames(p, c, pgns, frames, kinds, lengths, arena);
    leave_batch(r, heads, bytes, counters, counts)
}
