// The engine record, PGN 127489: 26 bytes, four frames. Its hours, in seconds, are the four bytes from 11 on: two in one frame, two in the next.
use assembler::Arrival;
use builder::FastPacketBuilder;
use can_id::CanFrame;
use fast_packet::MAX_FAST_PACKET_PAYLOAD;
use std::fmt;

pub(crate) const PGN: u32 = 127489;

const SIZE: usize = 26;

const HOURS_AT: usize = 11;

const RESERVED_AT: usize = 19;

// A record on its way: who sends it, its number, and its hours.
#[derive(Clone, Copy)]
pub(crate) struct Record {
    pub(crate) source: u8,
    pub(crate) sequence: u8,
    pub(crate) hours: Hours,
}

impl Record {
    pub(crate) fn new(source: u8, sequence: u8, seconds: u32) -> Record {
        Record {
            source,
            sequence,
            hours: Hours(seconds),
        }
    }

    fn payload(self) -> [u8; SIZE] {
        let mut payload = [0; SIZE];
        payload[HOURS_AT..HOURS_AT + 4].copy_from_slice(&self.hours.0.to_le_bytes());
        payload[RESERVED_AT] = 0xFF;
        payload
    }

    // Its frame at an index up to 3, as the builder gives it, heard at this time.
    pub(crate) fn arrival(self, now_ms: u64, index: u8) -> Arrival {
        let payload = self.payload();
        let made = FastPacketBuilder::new(PGN, self.source, None, &payload, &[PGN], self.sequence);
        let CanFrame { data, .. } = frame_at(made.builder, index, &payload);
        Arrival {
            now_ms,
            pgn: PGN,
            source_address: self.source,
            data,
        }
    }
}

// A message's frame at an index, as the builder gives it.
pub(crate) fn frame_at(builder: FastPacketBuilder, index: u8, payload: &[u8]) -> CanFrame {
    match builder
        .next_frame(index, sent_before(index), payload)
        .answer
    {
        Ok(Some(frame)) => frame,
        _ => CanFrame::default(),
    }
}

// How many bytes of a message are sent before its frame at this index.
fn sent_before(index: u8) -> usize {
    (usize::from(index) * 7).saturating_sub(1)
}

// Hours as an engine counts them, in seconds.
#[derive(Clone, Copy)]
pub(crate) struct Hours(pub(crate) u32);

impl Hours {
    // Those of a delivered record.
    pub(crate) fn of(payload: &[u8; MAX_FAST_PACKET_PAYLOAD]) -> Hours {
        Hours(u32::from_le_bytes([
            payload[HOURS_AT],
            payload[HOURS_AT + 1],
            payload[HOURS_AT + 2],
            payload[HOURS_AT + 3],
        ]))
    }
}

// The seconds, and the same as hours and minutes.
impl fmt::Display for Hours {
    fn fmt<W: fmt::Write>(&self, f: &mut fmt::Formatter<W>) -> fmt::Result {
        let seconds = self.0;
        let hours = seconds / 3600;
        let minutes = seconds / 60 % 60;
        write!(f, "{seconds} s, {hours}:{minutes:02} h")
    }
}
