// The bench's frame and its numbers, and how many frames separate slices have. The bench shares no code with what it judges.
ghost use Rattle.std.specs.Prelude.{◌≡◌};
ghost use Rattle.splitter.specs.Frames.{count_in};

// Maximum payload a Fast Packet can transport once reassembled. The bench has its own, as it shares no code with what it judges.
pub const MAX_FAST_PACKET_PAYLOAD: usize = 223;

// What fills the bytes of a frame that carry nothing.
pub const FILL: u8 = 0xFF;

// A frame's bytes: all of them, or the frame is refused.
pub const FRAME_BYTES: usize = 8;

// The first number that is no identifier: 29 bits do not hold it.
pub const TOO_WIDE: u32 = 0x2000_0000;

// Byte 0 of a frame is the sequence times this, plus the index.
pub const INDICES: u8 = 32;

// Sequences count modulo this.
pub const SEQUENCES: u8 = 8;

// ---- in separate slices frame i has the identifier at i, the eight bytes from 8 * i on, and the length at i

// How many frames the slices have: the shortest decides.
pub fn frame_count(ids: usize, bytes: usize, lens: usize) -> usize
    ensures { result ≡ count_in ids bytes lens }
{
    ids.min((bytes / FRAME_BYTES).min(lens))
}
