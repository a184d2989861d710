// The frame builder: made, set, and asked for the next frame.
ghost use Rattle.std.specs.Prelude.{◌≡◌};
ghost use Rattle.builder.specs.Next.{of_next};
ghost use Rattle.builder.specs.Frames.{turn_of};
ghost use Rattle.ffi.specs.Frames.{NewBuilderLeft, sequence_set, priority_set, destination_set, NextFrameLeft, started_place, TurnLeft};

use builder::{FastPacketBuilder, Item, Next};
use numbers::{
    after_numbers, builder_from, builder_numbers, destination_from, go_on, iterator_from, lay_made,
    place_numbers, tell_next,
};

// ---- a builder made and set, in place

// Returns the number that the caller holds from now on.
#[tactic(auto, unfolding(crate::specs::Frames::new_builder_to))]
pub fn hf_raw_builder_new(
    pgn: u32,
    source_address: u8,
    destination: u16,
    payload: &[u8],
    pgns: &[u32],
    sequence_id: u8,
    builder: &mut [u64; 6],
) -> u8
    ensures { NewBuilderLeft pgn source_address destination payload.now pgns.now sequence_id result builder.new }
{
    let to = destination_from(u64::from(destination));
    let made = FastPacketBuilder::new(pgn, source_address, to, payload, pgns, sequence_id);
    lay_made(made, builder)
}

#[tactic(auto, unfolding(crate::specs::Frames::sequence_set))]
pub fn hf_raw_builder_with_sequence_id(builder: &mut [u64; 6], sequence_id: u8)
    ensures { builder.new ≡ sequence_set builder.old sequence_id }
{
    let b = builder_from(builder);
    *builder = builder_numbers(b.with_sequence_id(sequence_id));
}

#[tactic(auto, unfolding(crate::specs::Frames::priority_set))]
pub fn hf_raw_builder_with_priority(builder: &mut [u64; 6], priority: u8)
    ensures { builder.new ≡ priority_set builder.old priority }
{
    let b = builder_from(builder);
    *builder = builder_numbers(b.with_priority(priority));
}

#[tactic(auto, unfolding(crate::specs::Frames::destination_set))]
pub fn hf_raw_builder_to_destination(builder: &mut [u64; 6], destination: u8)
    ensures { builder.new ≡ destination_set builder.old destination }
{
    let b = builder_from(builder);
    *builder = builder_numbers(b.to_destination(destination));
}

// ---- the next frame, at any frame index and bytes sent

// 0 for a frame, 100 for End, or a refusal's number.
#[tactic(auto, unfolding(crate::specs::Frames::next_with))]
pub fn hf_raw_next_frame(
    builder: &[u64; 6],
    frame_index: u8,
    bytes_sent: usize,
    payload: &[u8],
    data: &mut [u8; 8],
    frame: &mut [u64; 3],
    after: &mut [u64; 2],
) -> u32
    ensures { NextFrameLeft builder.now frame_index bytes_sent payload.now
        result (record { bytes = «data».new; numbers = frame.new; place = after.new }) }
{
    let b = builder_from(builder);
    let next = b.next_frame(frame_index, bytes_sent, payload);
    *after = after_numbers(next);
    tell_next(next, data, frame)
}

// ---- frame by frame

// The place before the first frame.
#[tactic(auto, unfolding(crate::specs::Frames::started_place))]
pub fn hf_raw_builder_build(builder: &[u64; 6], place: &mut [u64; 2])
    ensures { place.new ≡ started_place builder.now }
{
    let b = builder_from(builder);
    *place = place_numbers(b.build());
}

// The step that an item is.
fn step_in(item: Item) -> Next
    ensures { of_next result ≡ (turn_of item).answer }
{
    Next {
        answer: item.answer,
        frame_index: item.iterator.frame_index,
        bytes_sent: item.iterator.bytes_sent,
    }
}

// As `hf_raw_next_frame`; the place goes on in the lent memory.
#[tactic(auto, unfolding(crate::specs::Frames::turn_with))]
pub fn hf_raw_frame_iterator_next(
    builder: &[u64; 6],
    place: &mut [u64; 2],
    payload: &[u8],
    data: &mut [u8; 8],
    frame: &mut [u64; 3],
) -> u32
    ensures { TurnLeft builder.now payload.now place.old
        result (record { bytes = «data».new; numbers = frame.new; place = place.new }) }
{
    let t = iterator_from(builder, place);
    let next = step_in(t.next(payload));
    go_on(place, next);
    tell_next(next, data, frame)
}
