// The batch: many frames in one call.
ghost use Rattle.ffi.specs.Batches.{FramesLeft};

use assembler::POOL_BYTES;
use numbers::POOL_NUMBERS;

// 0, 1 or 27. Of each frame taken, `kinds` has 102 FragmentConsumed, 103 MessageComplete, 104 NotListed, 105 Rejected, 106 PoolFull or 107 Lost, and
// `lengths` the message's; the messages stand end to end from the arena's start. `counts` is how many frames were taken and how many bytes of the arena.
#[unsafe(no_mangle)]
pub extern "C" fn hf_raw_process_frames(
    size: usize,
    mode: u32,
    kind: u32,
    heads: &mut [u64; POOL_NUMBERS],
    bytes: &mut [u8; POOL_BYTES],
    counters: &mut [u32; 5],
    pgns: &[u32],
    times: &[u64],
    frame_pgns: &[u32],
    sources: &[u8],
    data: &[u8],
    kinds: &mut [u8],
    lengths: &mut [u8],
    arena: &mut [u8],
    counts: &mut [u64; 2],
) -> u32
    ensures { FramesLeft size mode kind pgns.now (record { times = times.now; pgns = frame_pgns.now; sources = sources.now; bytes = «data».now })
        (record { heads = heads.old; bytes = bytes.old; counters = counters.old; kinds = kinds.old; lengths = lengths.old; arena = arena.old; counts = counts.old })
        result (record { heads = heads.new; bytes = bytes.new; counters = counters.new; kinds = kinds.new; lengths = lengths.new; arena = arena.new; counts = counts.new }) }
{
    ffi::batches::hf_raw_process_frames(
        size, mode, kind, heads, bytes, counters, pgns, times, frame_pgns, sources, data, kinds,
        lengths, arena, counts,
    )
}
