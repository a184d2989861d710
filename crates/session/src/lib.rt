// One session of the Fast Packet assembler, but for its bytes: its types, its silence and its counters, what a frame finds in the heads and what it
// makes of the head that it takes. The single call and the batch share it. specs/ says what the tests and heads are (document 01); specs/inner/ how the
// code goes about a call.
#![tactic(auto)]

ghost use Rattle.std.specs.Prelude.{◌≡◌};
ghost use Rattle.session.specs.Kinds.{kind_number};

mod counting;
mod frames;
mod heads;
mod looks;
mod moved;
mod places;
mod plans;

pub use counting::count;
pub use frames::{FIRST_DATA, NEXT_DATA};
pub use heads::fresh_head;
pub use looks::look;
pub use places::{nothing_found, place_for, within_limit};
pub use plans::decide;

// The most sessions that a pool may have.
pub const POOL_LIMIT: usize = 32;

// Maximum time without addressed message for a fast packet session.
pub const SESSION_TIMEOUT_MS: u64 = 500;

// Useful bytes a first frame carries, after the sequence and size header.
pub const FIRST_FRAME_PAYLOAD: usize = 6;

// Useful bytes a continuation frame carries, after the sequence header.
pub const CONTINUATION_PAYLOAD: usize = 7;

// What a clock reading before a session's last one says of it, chosen when the pool is made: nothing, as in the original, or that it is silent. A
// half message whose boat's time was set back is silent for 0 ms by the original, and can live for hours.
#[derive(Debug, Clone, Copy, PartialEq, Eq)]
pub enum Mode {
    AsOriginal,
    SetBackIsSilence,
}

// Which key the messages of a pool have, chosen when it is made: source, PGN and sequence, as in the original; or the destination too, which the
// identifier says. By the original's key one sender's answers to two displays at once are taken for one.
#[derive(Debug, Clone, Copy, PartialEq, Eq)]
pub enum PoolKind {
    Original,
    Addressed,
}

// A session but for its buffer. The part of its key that is the destination is 0 for none, and the destination plus 1 else.
#[derive(Debug, Clone, Copy, PartialEq, Eq, Default)]
pub struct Head {
    pub in_progress: bool,
    pub source_address: u8,
    pub sequence_id: u8,
    pub last_frame_index: u8,
    pub pgn: u32,
    pub part: u16,
    pub expected_size: usize,
    pub current_size: usize,
    pub last_seen_ms: u64,
}

// A frame as it was heard, with the clock reading at it: of its eight bytes the first `length` were sent. Its part is that of its key, as a head has it.
#[derive(Debug, Clone, Copy, PartialEq, Eq)]
pub struct Heard {
    pub now_ms: u64,
    pub pgn: u32,
    pub source_address: u8,
    pub part: u16,
    pub data: [u8; 8],
    pub length: usize,
}

// The counters are cumulative. `rejected_frames` and `unknown_pgn` say that the assembler was handed traffic it does not deal with; the other
// three say that a message was lost.
#[derive(Debug, Clone, Copy, PartialEq, Eq, Default)]
pub struct Counters {
    pub expired_sessions: u32,
    pub pool_exhausted: u32,
    pub rejected_frames: u32,
    pub lost_fragments: u32,
    pub unknown_pgn: u32,
}

// One of the counters.
#[derive(Debug, Clone, Copy, PartialEq, Eq)]
pub enum Counter {
    Expired,
    Exhausted,
    Rejected,
    Lost,
    Unknown,
}

// What the caller is told of a frame. An impossible pool is refused, and so is an identifier that is too wide. NotListed, Rejected, PoolFull and Lost say why a frame was not taken; Lost is a
// continuation without a live session, or one out of turn or cut short, which ends its session. The numbers of the first two are their refusals', and those of refusals are 1 to 99. 101 was given
// where NotListed, Rejected, PoolFull and Lost are now told apart, and is given no more.
#[derive(Debug, Clone, Copy, PartialEq, Eq)]
pub enum Kind {
    ImpossiblePool = 1,
    TooWide = 8,
    FragmentConsumed = 102,
    MessageComplete = 103,
    NotListed = 104,
    Rejected = 105,
    PoolFull = 106,
    Lost = 107,
}

impl Kind {
    // The number by which a row or a caller in C is told it.
    #[tactic(auto, unfolding(crate::specs::Kinds::kind_number))]
    pub fn number(self) -> u8
        ensures { result ≡ kind_number self }
    {
        self as u8
    }
}

// What one walk over the heads finds: whether any is impossible, and the first place of each kind; POOL_LIMIT stands for none. No Option: the same walk in C
// over four of them took 43 ns in place of 34 at 4 heads, 73 in place of 56 at 8 and 253 in place of 194 at 32.
#[derive(Debug, Clone, Copy, PartialEq, Eq)]
pub struct Found {
    pub bad: bool,
    pub key: usize,
    pub live: usize,
    pub own: usize,
    pub free: usize,
}

// What a frame does, made from the one head that it may change: the answer and the counter; the head after it; `count` bytes of the frame, from
// `from` on, go to place `at` of the buffer; a message of `whole` bytes leaves the buffer, or one of `short` bytes the frame itself.
#[derive(Debug, Clone, Copy, PartialEq, Eq)]
pub struct Plan {
    pub kind: Kind,
    pub mark: Option<Counter>,
    pub head: Head,
    pub at: usize,
    pub from: usize,
    pub count: usize,
    pub whole: usize,
    pub short: usize,
}
