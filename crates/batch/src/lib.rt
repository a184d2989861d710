// Many frames in one call: the pool is taken once and looked at once, and rows of frames are gone over in place. What it does is what the single
// call does, frame by frame (specs/Rows).
#![tactic(auto)]

mod batching;
mod bytes;
mod list_memory;
mod mirror;
mod room;
mod rows;
mod search;
mod walks;
mod ways;

use assembler::Pool;
pub use batching::process_frames;
pub use rows::FrameRows;
use session::Counters;

// Why a batch is refused: an impossible pool, or one whose key has the destination, by 1, a row that is too short for its frames by 27.
#[derive(Debug, Clone, Copy, PartialEq, Eq)]
pub enum BatchError {
    ImpossiblePool,
    NoRoom,
}

// How many frames were taken, and how many bytes of the arena their messages take.
#[derive(Debug, Clone, Copy, PartialEq, Eq)]
pub struct Taken {
    pub frames: usize,
    pub bytes: usize,
}

// What a batch answers. The pool stands beside the result and not in it: a refusal gives it back too.
#[derive(Drop)]
pub struct Batch {
    pub result: Result<Taken, BatchError>,
    pub counters: Counters,
    pub pool: Pool,
}
