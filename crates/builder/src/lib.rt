// Frames of a Fast Packet message, or the one raw frame of a short message, from a payload.
#![tactic(auto)]

ghost use Rattle.std.specs.Prelude.{◌≡◌};
ghost use Rattle.can_id.specs.Build.{of_built, build_of, error_number, error_carries};
ghost use Rattle.builder.specs.Builder.{new_builder, with_sequence, with_priority, with_destination, id_builder};
ghost use Rattle.builder.specs.Next.{of_next, next_of, refused_step, framed_step};
ghost use Rattle.builder.specs.Frames.{started, turn_of, next_turn};

mod frame_bytes;

use crate::frame_bytes::{Laid, lay_frame};
use can_id::{CanFrame, CanId, CanIdBuildError, CanIdBuilder};
use fast_packet::{MAX_FAST_PACKET_PAYLOAD, is_listed};

// ---- what goes in and what comes out

// What all frames of one message share. The payload travels beside it.
#[derive(Debug, Clone, Copy, PartialEq, Eq)]
pub struct FastPacketBuilder {
    pub pgn: u32,
    pub source_address: u8,
    pub destination: Option<u8>,
    pub priority: u8,
    pub sequence_id: u8,
    // Fast Packet framing: any listed PGN, or a payload over 8 bytes.
    pub fast: bool,
}

// A builder, and the number that the caller holds from now on.
#[derive(Debug, Clone, Copy, PartialEq, Eq)]
pub struct MadeBuilder {
    pub builder: FastPacketBuilder,
    pub sequence_id: u8,
}

// The answer, with the frame index and the bytes sent that the next question takes: a frame, or none once all were sent, or why none can be built.
#[derive(Debug, Clone, Copy, PartialEq, Eq)]
pub struct Next {
    pub answer: Result<Option<CanFrame>, CanIdBuildError>,
    pub frame_index: u8,
    pub bytes_sent: usize,
}

impl Next {
    fn refused(error: CanIdBuildError, frame_index: u8, bytes_sent: usize) -> Self
        ensures { of_next result ≡ refused_step (error_number error) (error_carries error) frame_index bytes_sent }
    {
        Next {
            answer: Err(error),
            frame_index,
            bytes_sent,
        }
    }
}

// ---- the builder

impl FastPacketBuilder {
    // A builder for a payload, with the number that the caller holds as its sequence. `pgns` are the Fast Packet PGNs.
    pub fn new(
        pgn: u32,
        source_address: u8,
        destination: Option<u8>,
        payload: &[u8],
        pgns: &[u32],
        sequence_id: u8,
    ) -> MadeBuilder
        ensures { result ≡ new_builder pgn source_address destination payload.now pgns.now sequence_id }
    {
        let builder = FastPacketBuilder {
            pgn,
            source_address,
            destination,
            priority: CanId::DEFAULT_PRIORITY,
            sequence_id: sequence_id % 8,
            fast: is_listed(pgns, pgn) || payload.len() > 8,
        };
        MadeBuilder {
            builder,
            sequence_id: (sequence_id % 8 + 1) % 8,
        }
    }

    // Overrides the sequence, of which the low 3 bits are kept: for tests, and for traffic that is played again.
    pub fn with_sequence_id(mut self, sequence_id: u8) -> Self
        ensures { result ≡ with_sequence self sequence_id }
    {
        self.sequence_id = sequence_id % 8;
        self
    }

    // Sets the priority, of which the low 3 bits are kept.
    pub fn with_priority(mut self, priority: u8) -> Self
        ensures { result ≡ with_priority self priority }
    {
        self.priority = priority % 8;
        self
    }

    // Sets the destination, as a directed message needs it.
    pub fn to_destination(mut self, destination_address: u8) -> Self
        ensures { result ≡ with_destination self destination_address }
    {
        self.destination = Some(destination_address);
        self
    }

    // The identifier of the message's frames.
    fn identifier(self) -> Result<CanId, CanIdBuildError>
        ensures { of_built result ≡ build_of (id_builder self) }
    {
        let id_builder = CanIdBuilder {
            priority: self.priority % 8,
            pgn: self.pgn,
            source_address: self.source_address,
            destination: self.destination,
        };
        id_builder.build()
    }

    // The frame, with the identifier.
    #[tactic(auto, using(crate::proofs::NextLaws::framing))]
    fn framed(self, id: CanId, frame_index: u8, bytes_sent: usize, payload: &[u8]) -> Next
        ensures { of_next result ≡ framed_step id.0 self frame_index bytes_sent payload.now }
    {
        let total_len = payload.len();
        if total_len > MAX_FAST_PACKET_PAYLOAD || (!self.fast && total_len > 8) {
            return Next::refused(CanIdBuildError::InvalidData, frame_index, total_len);
        }
        let Laid {
            data,
            len,
            frame_index,
            bytes_sent,
        } = lay_frame(
            self.fast,
            self.sequence_id,
            frame_index,
            bytes_sent,
            payload,
        );
        Next {
            answer: Ok(Some(CanFrame { id, data, len })),
            frame_index,
            bytes_sent,
        }
    }

    // The next frame of a message with this payload, at a frame index and after some bytes sent.
    #[tactic(auto, using(crate::proofs::NextLaws::asking))]
    pub fn next_frame(self, frame_index: u8, bytes_sent: usize, payload: &[u8]) -> Next
        ensures { of_next result ≡ next_of self frame_index bytes_sent payload.now }
    {
        let total_len = payload.len();
        // An empty payload has nothing to send: say so once instead of ending as if every frame had gone out.
        if total_len == 0 && frame_index == 0 {
            return Next::refused(CanIdBuildError::EmptyPayload, 1, bytes_sent);
        }
        if bytes_sent >= total_len {
            return Next {
                answer: Ok(None),
                frame_index,
                bytes_sent,
            };
        }
        match self.identifier() {
            Ok(id) => self.framed(id, frame_index, bytes_sent, payload),
            Err(error) => Next::refused(error, frame_index, total_len),
        }
    }

    // Starts the frames of the message; each call of `next` gives the next one.
    pub fn build(self) -> FrameIterator
        ensures { result ≡ started self }
    {
        FrameIterator {
            builder: self,
            frame_index: 0,
            bytes_sent: 0,
        }
    }
}

// ---- frame by frame, as a caller of the original writes it

// Where the frames of a message have got to. It goes in by value, and comes back with the frame.
#[derive(Debug, Clone, Copy, PartialEq, Eq)]
pub struct FrameIterator {
    pub builder: FastPacketBuilder,
    pub frame_index: u8,
    pub bytes_sent: usize,
}

// An answer, and the iterator for the next question.
#[derive(Debug, Clone, Copy, PartialEq, Eq)]
pub struct Item {
    pub iterator: FrameIterator,
    pub answer: Result<Option<CanFrame>, CanIdBuildError>,
}

impl FrameIterator {
    // The next frame of the message with this payload, which is the one that the builder was made for.
    pub fn next(mut self, payload: &[u8]) -> Item
        ensures { turn_of result ≡ next_turn self payload.now }
    {
        let next = self
            .builder
            .next_frame(self.frame_index, self.bytes_sent, payload);
        self.frame_index = next.frame_index;
        self.bytes_sent = next.bytes_sent;
        Item {
            iterator: self,
            answer: next.answer,
        }
    }
}
