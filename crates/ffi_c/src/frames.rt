// The frame builder: made, set, and asked for the next frame.
ghost use Rattle.std.specs.Prelude.{◌≡◌};
ghost use Rattle.ffi.specs.Frames.{NewBuilderLeft, sequence_set, priority_set, destination_set, NextFrameLeft, started_place, TurnLeft};

// ---- a builder made and set, in place

// Returns the number that the caller holds from now on.
#[unsafe(no_mangle)]
pub extern "C" fn hf_raw_builder_new(
    pgn: u32,
    source_address: u8,
    destination: u16,
    payload: &[u8],
    pgns: &[u32],
    sequence_id: u8,
    builder: &mut [u64; 6],
) -> u8
    ensures { NewBuilderLeft pgn source_address destination payload.now pgns.now sequence_id result builder.new }
{
    ffi::frames::hf_raw_builder_new(
        pgn,
        source_address,
        destination,
        payload,
        pgns,
        sequence_id,
        builder,
    )
}

#[unsafe(no_mangle)]
pub extern "C" fn hf_raw_builder_with_sequence_id(builder: &mut [u64; 6], sequence_id: u8)
    ensures { builder.new ≡ sequence_set builder.old sequence_id }
{
    ffi::frames::hf_raw_builder_with_sequence_id(builder, sequence_id);
}

#[unsafe(no_mangle)]
pub extern "C" fn hf_raw_builder_with_priority(builder: &mut [u64; 6], priority: u8)
    ensures { builder.new ≡ priority_set builder.old priority }
{
    ffi::frames::hf_raw_builder_with_priority(builder, priority);
}

#[unsafe(no_mangle)]
pub extern "C" fn hf_raw_builder_to_destination(builder: &mut [u64; 6], destination: u8)
    ensures { builder.new ≡ destination_set builder.old destination }
{
    ffi::frames::hf_raw_builder_to_destination(builder, destination);
}

// ---- the next frame, at any frame index and bytes sent

// 0 for a frame, 100 for End, or a refusal's number.
#[unsafe(no_mangle)]
pub extern "C" fn hf_raw_next_frame(
    builder: &[u64; 6],
    frame_index: u8,
    bytes_sent: usize,
    payload: &[u8],
    data: &mut [u8; 8],
    frame: &mut [u64; 3],
    after: &mut [u64; 2],
) -> u32
    ensures { NextFrameLeft builder.now frame_index bytes_sent payload.now
        result (record { bytes = «data».new; numbers = frame.new; place = after.new }) }
{
    ffi::frames::hf_raw_next_frame(
        builder,
        frame_index,
        bytes_sent,
        payload,
        data,
        frame,
        after,
    )
}

// ---- frame by frame

// The place before the first frame.
#[unsafe(no_mangle)]
pub extern "C" fn hf_raw_builder_build(builder: &[u64; 6], place: &mut [u64; 2])
    ensures { place.new ≡ started_place builder.now }
{
    ffi::frames::hf_raw_builder_build(builder, place);
}

// As `hf_raw_next_frame`; the place goes on in the lent memory.
#[unsafe(no_mangle)]
pub extern "C" fn hf_raw_frame_iterator_next(
    builder: &[u64; 6],
    place: &mut [u64; 2],
    payload: &[u8],
    data: &mut [u8; 8],
    frame: &mut [u64; 3],
) -> u32
    ensures { TurnLeft builder.now payload.now place.old
        result (record { bytes = «data».new; numbers = frame.new; place = place.new }) }
{
    ffi::frames::hf_raw_frame_iterator_next(builder, place, payload, data, frame)
}
