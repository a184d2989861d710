// NMEA 2000 Fast Packet assembler: the pool, the receive call, and its other forms: by the identifier, for a frame with a length, with the counters lent.
#![tactic(auto)]

mod arrivals;
mod bytes;
mod lending;
mod making;
mod receiving;
#[cfg(test)]
mod tests;

pub use arrivals::Arrive;
use can_id::CanId;
use fast_packet::MAX_FAST_PACKET_PAYLOAD;
pub use lending::process_frame;
pub use receiving::receive;
use session::{Counters, Head, Kind, Mode, POOL_LIMIT, PoolKind};

// Sessions in the default pool, one for each message in flight.
pub const DEFAULT_SESSIONS: usize = 4;

// The buffers of all sessions, end to end.
pub const POOL_BYTES: usize = POOL_LIMIT * MAX_FAST_PACKET_PAYLOAD;

// A fixed pool of reusable sessions: session k is heads[k] with the MAX_FAST_PACKET_PAYLOAD bytes from MAX_FAST_PACKET_PAYLOAD * k on, as C lends them. Those
// from `size` on are not used. Kind and mode are those that the pool was made with; no call changes them.
#[derive(Clone, Copy)]
pub struct Pool {
    pub kind: PoolKind,
    pub mode: Mode,
    pub size: usize,
    pub heads: [Head; POOL_LIMIT],
    pub bytes: [u8; POOL_BYTES],
}

// The refusal of a size above the limit, with a fresh pool of size 0.
#[derive(Clone, Copy)]
pub struct ImpossiblePool {
    pub pool: Pool,
}

// A frame that arrived, with the clock reading at it.
#[derive(Clone, Copy)]
pub struct Arrival {
    pub now_ms: u64,
    pub pgn: u32,
    pub source_address: u8,
    pub data: [u8; 8],
}

// A frame that arrived with its identifier, for a pool whose key has the destination.
#[derive(Clone, Copy)]
pub struct ArrivalById {
    pub now_ms: u64,
    pub id: CanId,
    pub data: [u8; 8],
}

// A frame that arrived with a length: of its eight bytes the first `length` were sent.
#[derive(Debug, Clone, Copy, PartialEq, Eq)]
pub struct WithLength<A> {
    pub arrival: A,
    pub length: usize,
}

pub type ArrivalWithLength = WithLength<Arrival>;

pub type ArrivalByIdWithLength = WithLength<ArrivalById>;

// What a call answers where the counters are the caller's own: a kind with payload and length beside it, the form that document 01 names in the place of the
// original's enum with its array.
#[derive(Clone, Copy)]
pub struct Processed {
    pub kind: Kind,
    pub payload: [u8; MAX_FAST_PACKET_PAYLOAD],
    pub length: usize,
    pub pool: Pool,
}

// What a call answers, with the counters after it. Without a message the payload is zeros and the length 0.
#[derive(Clone, Copy)]
pub struct Received {
    pub kind: Kind,
    pub payload: [u8; MAX_FAST_PACKET_PAYLOAD],
    pub length: usize,
    pub pool: Pool,
    pub counters: Counters,
}
