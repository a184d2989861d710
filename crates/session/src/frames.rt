// What a heard frame says. Each is read once, so that nothing else looks into the bytes.
ghost use Rattle.std.specs.Prelude.{◌≡◌};
ghost use Rattle.session.specs.Frames.{sequence_of, index_of, size_of, bad_first};

use crate::{FIRST_FRAME_PAYLOAD, Heard};
use fast_packet::MAX_FAST_PACKET_PAYLOAD;

// The message of a first frame starts after sequence and size, that of a continuation after the sequence.
pub const FIRST_DATA: usize = 2;

pub const NEXT_DATA: usize = 1;

impl Heard {
    #[tactic(auto, unfolding(crate::specs::Frames::sequence_of))]
    pub(crate) fn sequence(self) -> u8
        ensures { result ≡ sequence_of self }
    {
        self.data[0] / 32
    }

    #[tactic(auto, unfolding(crate::specs::Frames::index_of))]
    pub(crate) fn index(self) -> u8
        ensures { result ≡ index_of self }
    {
        self.data[0] % 32
    }

    #[tactic(auto, unfolding(crate::specs::Frames::size_of))]
    pub(crate) fn size(self) -> usize
        ensures { result ≡ size_of self }
    {
        usize::from(self.data[1])
    }

    // A first frame that announces no message or one too long, or that lacks its size or a byte of the message.
    #[tactic(auto, unfolding(crate::specs::Frames::bad_first, crate::specs::Frames::bad_size, crate::specs::Frames::cut_first))]
    pub(crate) fn is_bad_first(self) -> bool
        ensures { result ≡ bad_first self }
    {
        let size = self.size();
        let ends = FIRST_DATA + FIRST_FRAME_PAYLOAD.min(size);
        (size == 0) | (MAX_FAST_PACKET_PAYLOAD < size) | (self.length < ends)
    }
}
