// The receive call: a pool as its size, the numbers of its mode and kind, nine numbers for each head of its slots and their bytes, the counters as five
// numbers. A mode is 0, as the original, or 1, where a clock that was set back is silence; a kind is 0, as the original, or 1, where the key has the
// destination; any other number is no mode and no kind, and makes the pool impossible.
ghost use Rattle.ffi.specs.Calls.{NewPoolLeft, PoolWithModeLeft, PoolWithKindLeft, DefaultPoolLeft, FrameLeft, FrameWithLengthLeft, FrameByIdLeft, FrameByIdWithLengthLeft};
ghost use Rattle.ffi.specs.inner.Calls.{HeardLeft};

use assembler::{
    Arrival, ArrivalById, ArrivalByIdWithLength, ArrivalWithLength, Arrive, POOL_BYTES, Pool,
    Received, process_frame, receive,
};
use can_id::CanId;
use fast_packet::MAX_FAST_PACKET_PAYLOAD;
use numbers::{POOL_NUMBERS, counters_from, leave, leave_made, pool_asked, pool_from};

// 0, or 1 and heads and bytes as they were; `size`, `mode` and `kind` are the pool's, which is as the original.
pub fn hf_raw_pool_new(
    wanted: usize,
    heads: &mut [u64; POOL_NUMBERS],
    bytes: &mut [u8; POOL_BYTES],
    size: &mut usize,
    mode: &mut u32,
    kind: &mut u32,
) -> u32
    ensures { NewPoolLeft wanted (record { heads = heads.old; bytes = bytes.old; size = size.old; mode = mode.old; kind = kind.old })
        result (record { heads = heads.new; bytes = bytes.new; size = size.new; mode = mode.new; kind = kind.new }) }
{
    leave_made(Pool::new(wanted), heads, bytes, size, mode, kind)
}

// The same in the mode whose number is asked for; 1 too for a number that is no mode, and the mode is then 0.
pub fn hf_raw_pool_with_mode(
    wanted: usize,
    asked: u32,
    heads: &mut [u64; POOL_NUMBERS],
    bytes: &mut [u8; POOL_BYTES],
    size: &mut usize,
    mode: &mut u32,
    kind: &mut u32,
) -> u32
    ensures { PoolWithModeLeft wanted asked (record { heads = heads.old; bytes = bytes.old; size = size.old; mode = mode.old; kind = kind.old })
        result (record { heads = heads.new; bytes = bytes.new; size = size.new; mode = mode.new; kind = kind.new }) }
{
    leave_made(pool_asked(wanted, asked, 0), heads, bytes, size, mode, kind)
}

// The same of the kind whose number is asked for; 1 too for a number that is no kind, and the kind is then 0.
pub fn hf_raw_pool_with_kind(
    wanted: usize,
    asked: u32,
    asked_kind: u32,
    heads: &mut [u64; POOL_NUMBERS],
    bytes: &mut [u8; POOL_BYTES],
    size: &mut usize,
    mode: &mut u32,
    kind: &mut u32,
) -> u32
    ensures { PoolWithKindLeft wanted asked asked_kind (record { heads = heads.old; bytes = bytes.old; size = size.old; mode = mode.old; kind = kind.old })
        result (record { heads = heads.new; bytes = bytes.new; size = size.new; mode = mode.new; kind = kind.new }) }
{
    leave_made(
        pool_asked(wanted, asked, asked_kind),
        heads,
        bytes,
        size,
        mode,
        kind,
    )
}

// The pool of the default size, as the original; returns 0.
pub fn hf_raw_pool_default(
    heads: &mut [u64; POOL_NUMBERS],
    bytes: &mut [u8; POOL_BYTES],
    size: &mut usize,
    mode: &mut u32,
    kind: &mut u32,
) -> u32
    ensures { DefaultPoolLeft (record { heads = heads.old; bytes = bytes.old; size = size.old; mode = mode.old; kind = kind.old })
        result (record { heads = heads.new; bytes = bytes.new; size = size.new; mode = mode.new; kind = kind.new }) }
{
    leave_made(Ok(Pool::default()), heads, bytes, size, mode, kind)
}

// A frame heard by the call that is lent the counters, on a pool and counters from numbers.
fn processed<A: Arrive>(
    size: usize,
    mode: u32,
    kind: u32,
    heads: &mut [u64; POOL_NUMBERS],
    bytes: &mut [u8; POOL_BYTES],
    counters: &mut [u32; 5],
    pgns: &[u32],
    arrival: A,
    payload: &mut [u8; MAX_FAST_PACKET_PAYLOAD],
    length: &mut usize,
) -> u32
    ensures { HeardLeft size mode kind pgns.now A.ENTRY (A.hears arrival)
        (record { heads = heads.old; bytes = bytes.old; counters = counters.old; payload = payload.old; length = length.old })
        result (record { heads = heads.new; bytes = bytes.new; counters = counters.new; payload = payload.new; length = length.new }) }
{
    let pool = pool_from(size, mode, kind, heads, bytes);
    let mut after = counters_from(counters);
    let answer = process_frame(pool, &mut after, pgns, arrival);
    let message = answer.payload;
    let r = Received {
        kind: answer.kind,
        payload: message,
        length: answer.length,
        pool: answer.pool,
        counters: after,
    };
    leave(r, heads, bytes, counters, payload, length)
}

// The same by the call that has the counters by value.
fn received<A: Arrive>(
    size: usize,
    mode: u32,
    kind: u32,
    heads: &mut [u64; POOL_NUMBERS],
    bytes: &mut [u8; POOL_BYTES],
    counters: &mut [u32; 5],
    pgns: &[u32],
    arrival: A,
    payload: &mut [u8; MAX_FAST_PACKET_PAYLOAD],
    length: &mut usize,
) -> u32
    ensures { HeardLeft size mode kind pgns.now A.ENTRY (A.hears arrival)
        (record { heads = heads.old; bytes = bytes.old; counters = counters.old; payload = payload.old; length = length.old })
        result (record { heads = heads.new; bytes = bytes.new; counters = counters.new; payload = payload.new; length = length.new }) }
{
    let pool = pool_from(size, mode, kind, heads, bytes);
    let r = receive(pool, counters_from(counters), pgns, arrival);
    leave(r, heads, bytes, counters, payload, length)
}

// Refusal 1 for an impossible pool or one of the other kind, 102 FragmentConsumed, 103 MessageComplete, 104 NotListed, 105 Rejected, 106 PoolFull or 107 Lost.
pub fn hf_raw_process_frame(
    size: usize,
    mode: u32,
    kind: u32,
    heads: &mut [u64; POOL_NUMBERS],
    bytes: &mut [u8; POOL_BYTES],
    counters: &mut [u32; 5],
    pgns: &[u32],
    now_ms: u64,
    pgn: u32,
    source_address: u8,
    data: &[u8; 8],
    payload: &mut [u8; MAX_FAST_PACKET_PAYLOAD],
    length: &mut usize,
) -> u32
    ensures { FrameLeft size mode kind pgns.now (record { now_ms = now_ms; pgn = pgn; source_address = source_address; «data» = «data».now })
        (record { heads = heads.old; bytes = bytes.old; counters = counters.old; payload = payload.old; length = length.old })
        result (record { heads = heads.new; bytes = bytes.new; counters = counters.new; payload = payload.new; length = length.new }) }
{
    let data = *data;
    let arrival = Arrival {
        now_ms,
        pgn,
        source_address,
        data,
    };
    processed(
        size, mode, kind, heads, bytes, counters, pgns, arrival, payload, length,
    )
}

// The same by the call that has the counters by value.
pub fn hf_raw_receive(
    size: usize,
    mode: u32,
    kind: u32,
    heads: &mut [u64; POOL_NUMBERS],
    bytes: &mut [u8; POOL_BYTES],
    counters: &mut [u32; 5],
    pgns: &[u32],
    now_ms: u64,
    pgn: u32,
    source_address: u8,
    data: &[u8; 8],
    payload: &mut [u8; MAX_FAST_PACKET_PAYLOAD],
    length: &mut usize,
) -> u32
    ensures { FrameLeft size mode kind pgns.now (record { now_ms = now_ms; pgn = pgn; source_address = source_address; «data» = «data».now })
        (record { heads = heads.old; bytes = bytes.old; counters = counters.old; payload = payload.old; length = length.old })
        result (record { heads = heads.new; bytes = bytes.new; counters = counters.new; payload = payload.new; length = length.new }) }
{
    let data = *data;
    let arrival = Arrival {
        now_ms,
        pgn,
        source_address,
        data,
    };
    received(
        size, mode, kind, heads, bytes, counters, pgns, arrival, payload, length,
    )
}

// The same for a frame with a length.
pub fn hf_raw_process_frame_with_length(
    size: usize,
    mode: u32,
    kind: u32,
    heads: &mut [u64; POOL_NUMBERS],
    bytes: &mut [u8; POOL_BYTES],
    counters: &mut [u32; 5],
    pgns: &[u32],
    now_ms: u64,
    pgn: u32,
    source_address: u8,
    data: &[u8; 8],
    frame_length: usize,
    payload: &mut [u8; MAX_FAST_PACKET_PAYLOAD],
    length: &mut usize,
) -> u32
    ensures { FrameWithLengthLeft size mode kind pgns.now (record { arrival = record { now_ms = now_ms; pgn = pgn; source_address = source_address; «data» = «data».now }; length = frame_length })
        (record { heads = heads.old; bytes = bytes.old; counters = counters.old; payload = payload.old; length = length.old })
        result (record { heads = heads.new; bytes = bytes.new; counters = counters.new; payload = payload.new; length = length.new }) }
{
    let data = *data;
    let arrival = Arrival {
        now_ms,
        pgn,
        source_address,
        data,
    };
    let x = ArrivalWithLength {
        arrival,
        length: frame_length,
    };
    processed(
        size, mode, kind, heads, bytes, counters, pgns, x, payload, length,
    )
}

// By the identifier, on a pool whose key has the destination: refusal 8 for one that is too wide, before all else; then as the entries above.
pub fn hf_raw_process_frame_by_id(
    size: usize,
    mode: u32,
    kind: u32,
    heads: &mut [u64; POOL_NUMBERS],
    bytes: &mut [u8; POOL_BYTES],
    counters: &mut [u32; 5],
    pgns: &[u32],
    now_ms: u64,
    id: u32,
    data: &[u8; 8],
    payload: &mut [u8; MAX_FAST_PACKET_PAYLOAD],
    length: &mut usize,
) -> u32
    ensures { FrameByIdLeft size mode kind pgns.now (record { now_ms = now_ms; id = record { 0 = id }; «data» = «data».now })
        (record { heads = heads.old; bytes = bytes.old; counters = counters.old; payload = payload.old; length = length.old })
        result (record { heads = heads.new; bytes = bytes.new; counters = counters.new; payload = payload.new; length = length.new }) }
{
    let data = *data;
    let arrival = ArrivalById {
        now_ms,
        id: CanId(id),
        data,
    };
    processed(
        size, mode, kind, heads, bytes, counters, pgns, arrival, payload, length,
    )
}

// The same by the call that has the counters by value.
pub fn hf_raw_receive_by_id(
    size: usize,
    mode: u32,
    kind: u32,
    heads: &mut [u64; POOL_NUMBERS],
    bytes: &mut [u8; POOL_BYTES],
    counters: &mut [u32; 5],
    pgns: &[u32],
    now_ms: u64,
    id: u32,
    data: &[u8; 8],
    payload: &mut [u8; MAX_FAST_PACKET_PAYLOAD],
    length: &mut usize,
) -> u32
    ensures { FrameByIdLeft size mode kind pgns.now (record { now_ms = now_ms; id = record { 0 = id }; «data» = «data».now })
        (record { heads = heads.old; bytes = bytes.old; counters = counters.old; payload = payload.old; length = length.old })
        result (record { heads = heads.new; bytes = bytes.new; counters = counters.new; payload = payload.new; length = length.new }) }
{
    let data = *data;
    let arrival = ArrivalById {
        now_ms,
        id: CanId(id),
        data,
    };
    received(
        size, mode, kind, heads, bytes, counters, pgns, arrival, payload, length,
    )
}

// The same for a frame with a length.
pub fn hf_raw_process_frame_by_id_with_length(
    size: usize,
    mode: u32,
    kind: u32,
    heads: &mut [u64; POOL_NUMBERS],
    bytes: &mut [u8; POOL_BYTES],
    counters: &mut [u32; 5],
    pgns: &[u32],
    now_ms: u64,
    id: u32,
    data: &[u8; 8],
    frame_length: usize,
    payload: &mut [u8; MAX_FAST_PACKET_PAYLOAD],
    length: &mut usize,
) -> u32
    ensures { FrameByIdWithLengthLeft size mode kind pgns.now (record { arrival = record { now_ms = now_ms; id = record { 0 = id }; «data» = «data».now }; length = frame_length })
        (record { heads = heads.old; bytes = bytes.old; counters = counters.old; payload = payload.old; length = length.old })
        result (record { heads = heads.new; bytes = bytes.new; counters = counters.new; payload = payload.new; length = length.new }) }
{
    let data = *data;
    let arrival = ArrivalById {
        now_ms,
        id: CanId(id),
        data,
    };
    let x = ArrivalByIdWithLength {
        arrival,
        length: frame_length,
    };
    processed(
        size, mode, kind, heads, bytes, counters, pgns, x, payload, length,
    )
}
