// The frame builder, its iterator and its answers, as numbers.
ghost use Rattle.std.specs.Prelude.{◌≡◌};
ghost use Rattle.numbers.specs.Frames.{builder_from, builder_numbers, BuilderLeft, iterator_from, place_numbers, NextLeft, after_next, place_on};

use crate::numbers::{address_number, destination_from, error_carries, flag, laid_on};
use builder::{FastPacketBuilder, FrameIterator, MadeBuilder, Next};

// ---- a builder as numbers

#[tactic(auto, unfolding(crate::specs::Frames::builder_from))]
pub fn builder_from(n: &[u64; 6]) -> FastPacketBuilder
    ensures { result ≡ builder_from n.now }
{
    FastPacketBuilder {
        pgn: (n[0] % 0x1_0000_0000) as u32,
        source_address: (n[1] % 0x100) as u8,
        destination: destination_from(n[2]),
        priority: (n[3] % 0x100) as u8,
        sequence_id: (n[4] % 0x100) as u8,
        fast: n[5] != 0,
    }
}

#[tactic(auto, unfolding(crate::specs::Frames::builder_numbers))]
pub fn builder_numbers(b: FastPacketBuilder) -> [u64; 6]
    ensures { result ≡ builder_numbers b }
{
    [
        u64::from(b.pgn),
        u64::from(b.source_address),
        u64::from(address_number(b.destination)),
        u64::from(b.priority),
        u64::from(b.sequence_id),
        flag(b.fast),
    ]
}

pub fn lay_made(made: MadeBuilder, builder: &mut [u64; 6]) -> u8
    ensures { BuilderLeft made result builder.new }
{
    *builder = builder_numbers(made.builder);
    made.sequence_id
}

// ---- an answer as numbers

// The number of End, in the list of the kinds of answers.
const END: u32 = 100;

// Where there is no frame there are zeros in its place.
pub fn tell_next(next: Next, data: &mut [u8; 8], frame: &mut [u64; 3]) -> u32
    ensures { NextLeft next result «data».new frame.new }
{
    match next.answer {
        Ok(Some(sent)) => {
            let bytes = sent.data;
            *data = bytes;
            *frame = [u64::from(sent.id.0), sent.len as u64, 0];
            0
        }
        Ok(None) => {
            *data = [0; 8];
            *frame = [0; 3];
            END
        }
        Err(error) => {
            *data = [0; 8];
            *frame = [0, 0, u64::from(error_carries(error))];
            u32::from(error.number())
        }
    }
}

pub fn after_numbers(next: Next) -> [u64; 2]
    ensures { result ≡ after_next next }
{
    [u64::from(next.frame_index), next.bytes_sent as u64]
}

// ---- frame by frame

#[tactic(auto, unfolding(crate::specs::Frames::iterator_from))]
pub fn iterator_from(builder: &[u64; 6], place: &[u64; 2]) -> FrameIterator
    ensures { result ≡ iterator_from builder.now place.now }
{
    FrameIterator {
        builder: builder_from(builder),
        frame_index: (place[0] % 0x100) as u8,
        bytes_sent: place[1] as usize,
    }
}

#[tactic(auto, unfolding(crate::specs::Frames::place_numbers))]
pub fn place_numbers(t: FrameIterator) -> [u64; 2]
    ensures { result ≡ place_numbers t }
{
    [u64::from(t.frame_index), t.bytes_sent as u64]
}

// A place goes on; its frame index is written only where it changes.
#[tactic(auto, unfolding(crate::specs::Frames::place_laid))]
pub fn go_on(place: &mut [u64; 2], next: Next)
    ensures { place.new ≡ place_on place.old next }
{
    let index = laid_on(place[0], place[0] % 0x100, u64::from(next.frame_index));
    *place = [index, next.bytes_sent as u64];
}
