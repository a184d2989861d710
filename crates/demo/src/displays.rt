// One gateway answers two displays at once, by PGN 126208 and with one number: by the key of the original the two answers are taken for one, and where
// the key has the destination they are delivered as two.
use crate::engine;
use crate::gateway::{Both, Gateway};
use assembler::{Arrival, ArrivalById, Arrive};
use builder::FastPacketBuilder;
use can_id::CanFrame;
use session::{Kind, Mode, PoolKind};
use std::io::{self, Write};

const PGN: u32 = 126208;

const GATEWAY: u8 = 35;

const SEQUENCE: u8 = 5;

// The frame at an index up to 1 of the answer to a display, whose seven bytes are all the display's address.
fn answer_frame(display: u8, index: u8) -> CanFrame {
    let payload = [display; 7];
    let to = Some(display);
    let made = FastPacketBuilder::new(PGN, GATEWAY, to, &payload, &[PGN], SEQUENCE);
    engine::frame_at(made.builder, index, &payload)
}

// Whose a message is stands in its bytes: the first six came in one frame, the seventh in the next.
fn hear<W: Write, A: Arrive>(out: &mut W, gateway: &mut Gateway, arrival: A) -> io::Result<()> {
    let answer = gateway.hear(&[PGN], arrival);
    gateway.tell_kind(out, answer.kind)?;
    if answer.kind == Kind::MessageComplete {
        let payload = &answer.payload;
        write!(out, ": first byte {}, last {}", payload[0], payload[6])?;
    }
    Ok(())
}

// One frame, and the two answers side by side.
fn both_hear<W: Write>(
    out: &mut W,
    both: &mut Both,
    now_ms: u64,
    display: u8,
    index: u8,
) -> io::Result<()> {
    write!(out, "  at {now_ms} ms from {GATEWAY} to {display}")?;
    write!(out, ", message {SEQUENCE}, frame {index}: ")?;
    let CanFrame { id, data, .. } = answer_frame(display, index);
    let by_pgn = Arrival {
        now_ms,
        pgn: PGN,
        source_address: GATEWAY,
        data,
    };
    hear(out, &mut both.as_original, by_pgn)?;
    write!(out, " | ")?;
    hear(out, &mut both.otherwise, ArrivalById { now_ms, id, data })?;
    writeln!(out)
}

pub(crate) fn show<W: Write>(out: &mut W) -> io::Result<()> {
    write!(
        out,
        "One gateway answers two displays at once, by PGN {PGN} and with one number;"
    )?;
    writeln!(out, " each byte of an answer is its display's address")?;
    writeln!(
        out,
        "  (as the original | where the key has the destination)"
    )?;
    let mut both = Both {
        as_original: Gateway::new(4, Mode::AsOriginal, PoolKind::Original),
        otherwise: Gateway::new(4, Mode::AsOriginal, PoolKind::Addressed),
    };
    for (now_ms, display, index) in [(0, 16, 0), (10, 17, 0), (20, 16, 1), (30, 17, 1)] {
        both_hear(out, &mut both, now_ms, display, index)?;
    }
    both.show_counters(out)
}
