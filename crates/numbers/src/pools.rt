// A pool as its size, the numbers of its mode and kind, nine numbers for each head of its slots and their bytes; the counters as five numbers; and what an
// answer leaves in them.
ghost use Rattle.std.specs.Prelude.{◌≡◌, ◌+◌, ◌*◌, ◌<◌, ◌≤◌, ◌%◌, get_or};
ghost use Rattle.std.proofs.lemmas.List.Edits.{sets};
ghost use Rattle.session.specs.Rules.{pool_limit};
ghost use Rattle.numbers.specs.Pool.{head_numbers, head_at, head_over, heads_from, laid_over, mode_number, mode_from, pool_kind_number, pool_kind_from, size_under, pool_from, counters_from, counter_numbers, delivered_on, CallLeft, blank_heads, MadePoolLeft, MakesPoolAsked};

use crate::numbers::{flag, laid_on};
use assembler::{ImpossiblePool, POOL_BYTES, Pool, Received};
use fast_packet::MAX_FAST_PACKET_PAYLOAD;
use session::{Counters, Head, Kind, Mode, POOL_LIMIT, PoolKind, fresh_head};

// How many numbers a head has.
pub const HEAD_NUMBERS: usize = 9;

// The numbers of all heads.
pub const POOL_NUMBERS: usize = HEAD_NUMBERS * POOL_LIMIT;

// ---- heads as numbers

#[tactic(auto, unfolding(crate::specs::Pool::head_at, crate::specs::Numbers::is_set))]
fn head_at(n: &[u64; POOL_NUMBERS], at: usize) -> Head
    requires { at + head_numbers ≤ head_numbers * pool_limit }
    ensures { result ≡ head_at n.now at }
{
    Head {
        in_progress: n[at] != 0,
        source_address: (n[at + 1] % 0x100) as u8,
        sequence_id: (n[at + 2] % 0x100) as u8,
        last_frame_index: (n[at + 3] % 0x100) as u8,
        pgn: (n[at + 4] % 0x1_0000_0000) as u32,
        part: (n[at + 5] % 0x1_0000) as u16,
        expected_size: n[at + 6] as usize,
        current_size: n[at + 7] as usize,
        last_seen_ms: n[at + 8],
    }
}

fn heads_from(n: &[u64; POOL_NUMBERS]) -> [Head; POOL_LIMIT]
    ensures { result ≡ heads_from n.now }
{
    let h = fresh_head();
    let mut heads = [h; POOL_LIMIT];
    for k in 0..POOL_LIMIT {
        heads[k] = head_at(n, HEAD_NUMBERS * k);
    }
    heads
}

#[tactic(auto, unfolding(crate::specs::Pool::head_over, crate::specs::Numbers::is_set))]
fn head_over(n: &[u64; POOL_NUMBERS], at: usize, h: Head) -> [u64; HEAD_NUMBERS]
    requires { at + head_numbers ≤ head_numbers * pool_limit }
    ensures { result ≡ head_over n.now at h }
{
    [
        laid_on(n[at], flag(n[at] != 0), flag(h.in_progress)),
        laid_on(n[at + 1], n[at + 1] % 0x100, u64::from(h.source_address)),
        laid_on(n[at + 2], n[at + 2] % 0x100, u64::from(h.sequence_id)),
        laid_on(n[at + 3], n[at + 3] % 0x100, u64::from(h.last_frame_index)),
        laid_on(n[at + 4], n[at + 4] % 0x1_0000_0000, u64::from(h.pgn)),
        laid_on(n[at + 5], n[at + 5] % 0x1_0000, u64::from(h.part)),
        h.expected_size as u64,
        h.current_size as u64,
        h.last_seen_ms,
    ]
}

// No copy_from_slice: `laid_over`, which the entries promise, lays by `sets`, and std's law of a copy speaks of `paste`.
fn put_head(n: &mut [u64; POOL_NUMBERS], at: usize, h: Head)
    requires { at + head_numbers ≤ head_numbers * pool_limit }
    ensures { n.new ≡ sets n.old at (head_over n.old at h) }
{
    let numbers = head_over(n, at, h);
    for k in 0..HEAD_NUMBERS {
        n[at + k] = numbers[k];
    }
}

pub fn put_heads(n: &mut [u64; POOL_NUMBERS], heads: [Head; POOL_LIMIT])
    ensures { n.new ≡ laid_over n.old heads }
{
    for k in 0..POOL_LIMIT {
        put_head(n, HEAD_NUMBERS * k, heads[k]);
    }
}

// ---- a mode as a number: 0 as the original, 1 a clock that was set back is silence. No TryFrom: C may hand any number, and the entries promise of each how
// it is read.

#[tactic(auto, unfolding(crate::specs::Pool::mode_from, base::specs::Pick::pick))]
fn mode_from(number: u32) -> Mode
    ensures { result ≡ mode_from number }
{
    if number == 1 {
        return Mode::SetBackIsSilence;
    }
    Mode::AsOriginal
}

// ---- and a kind: 0 the original's, 1 with the destination in the key

#[tactic(auto, unfolding(crate::specs::Pool::pool_kind_from, base::specs::Pick::pick))]
fn pool_kind_from(asked: u32) -> PoolKind
    ensures { result ≡ pool_kind_from asked }
{
    if asked == 1 {
        return PoolKind::Addressed;
    }
    PoolKind::Original
}

// Under a number that is no mode, or no kind, a pool is too large, so every call refuses it.
fn size_under(mode: u32, kind: u32, size: usize) -> usize
    ensures { result ≡ size_under mode kind size }
{
    if (1 < mode) | (1 < kind) {
        return POOL_LIMIT + 1;
    }
    size
}

// ---- a pool, counters and a frame from numbers

pub fn pool_from(
    size: usize,
    mode: u32,
    kind: u32,
    heads: &[u64; POOL_NUMBERS],
    bytes: &[u8; POOL_BYTES],
) -> Pool
    ensures { result ≡ pool_from size mode kind heads.now bytes.now }
{
    let h = heads_from(heads);
    let b = *bytes;
    Pool {
        kind: pool_kind_from(kind),
        mode: mode_from(mode),
        size: size_under(mode, kind, size),
        heads: h,
        bytes: b,
    }
}

pub fn counters_from(n: &[u32; 5]) -> Counters
    ensures { result ≡ counters_from n.now }
{
    Counters {
        expired_sessions: n[0],
        pool_exhausted: n[1],
        rejected_frames: n[2],
        lost_fragments: n[3],
        unknown_pgn: n[4],
    }
}

pub fn counter_numbers(c: Counters) -> [u32; 5]
    ensures { result ≡ counter_numbers c }
{
    [
        c.expired_sessions,
        c.pool_exhausted,
        c.rejected_frames,
        c.lost_fragments,
        c.unknown_pgn,
    ]
}

// A message is delivered, and without one the lent payload stays as it was.
fn deliver_on(
    kind: Kind,
    message: [u8; MAX_FAST_PACKET_PAYLOAD],
    payload: &mut [u8; MAX_FAST_PACKET_PAYLOAD],
)
    ensures { payload.new ≡ delivered_on payload.old kind message }
{
    if kind == Kind::MessageComplete {
        *payload = message;
    }
}

// What an answer leaves in the lent memory.
pub fn leave(
    r: Received,
    heads: &mut [u64; POOL_NUMBERS],
    bytes: &mut [u8; POOL_BYTES],
    counters: &mut [u32; 5],
    payload: &mut [u8; MAX_FAST_PACKET_PAYLOAD],
    length: &mut usize,
) -> u32
    ensures { CallLeft r
        (record { heads = heads.old; bytes = bytes.old; counters = counters.old; payload = payload.old; length = length.old })
        result (record { heads = heads.new; bytes = bytes.new; counters = counters.new; payload = payload.new; length = length.new }) }
{
    let h = r.pool.heads;
    put_heads(heads, h);
    let b = r.pool.bytes;
    *bytes = b;
    let c = counter_numbers(r.counters);
    *counters = c;
    *length = r.length;
    let message = r.payload;
    deliver_on(r.kind, message, payload);
    u32::from(r.kind.number())
}

// ---- a pool made

// The pool that is wanted, in the mode and of the kind whose numbers are asked for; one that is no mode or no kind is refused as a size above the limit is.
pub fn pool_asked(wanted: usize, mode: u32, kind: u32) -> Result<Pool, ImpossiblePool>
    ensures { MakesPoolAsked wanted mode kind result }
{
    Pool::with_kind(
        size_under(mode, kind, wanted),
        mode_from(mode),
        pool_kind_from(kind),
    )
}

fn fresh_heads(heads: &mut [u64; POOL_NUMBERS], h: [Head; POOL_LIMIT])
    ensures { heads.new ≡ laid_over blank_heads h }
{
    *heads = [0; POOL_NUMBERS];
    put_heads(heads, h);
}

// The size of a pool, and the numbers of its mode and kind.
#[tactic(auto, unfolding(crate::specs::Pool::mode_number, crate::specs::Pool::pool_kind_number))]
fn leave_form(pool: Pool, size: &mut usize, mode: &mut u32, kind: &mut u32)
    ensures { (size.new ≡ pool.size) × (mode.new ≡ mode_number pool.mode) × (kind.new ≡ pool_kind_number pool.kind) }
{
    *size = pool.size;
    *mode = pool.mode as u32;
    *kind = pool.kind as u32;
}

pub fn leave_made(
    made: Result<Pool, ImpossiblePool>,
    heads: &mut [u64; POOL_NUMBERS],
    bytes: &mut [u8; POOL_BYTES],
    size: &mut usize,
    mode: &mut u32,
    kind: &mut u32,
) -> u32
    ensures { MadePoolLeft made (record { heads = heads.old; bytes = bytes.old; size = size.old; mode = mode.old; kind = kind.old })
        result (record { heads = heads.new; bytes = bytes.new; size = size.new; mode = mode.new; kind = kind.new }) }
{
    match made {
        Ok(pool) => {
            leave_form(pool, size, mode, kind);
            let h = pool.heads;
            fresh_heads(heads, h);
            let b = pool.bytes;
            *bytes = b;
            0
        }
        Err(refused) => {
            leave_form(refused.pool, size, mode, kind);
            u32::from(Kind::ImpossiblePool.number())
        }
    }
}
