// Runs the paper's builder values, frame by frame, and writes a line for each answer: what it is, the identifier, eight bytes
// and length of its frame (zeros where there is none), and the frame index and bytes sent that follow.
//
// The file stdout that this is held to was not made by this code. The original Rust made it: a small program over korri-n2k's own
// can_id and fast_packet/builder modules, unchanged, made each builder below from the same number and list, walked its iterator to
// None, read index and bytes sent after every answer, and took the sequence of the builder made next for the number handed back.
// It wrote document 01's number for each error, zeros for a frame that is not there, and gave the destination when it made the
// builder, which has no setter there. In the last two cases, nine bytes marked not fast, the original panics: those two lines are
// step 5 of document 01, by hand.
#![tactic(auto)]

use builder::{FastPacketBuilder, FrameIterator};
use can_id::{CanFrame, CanIdBuildError};
use fast_packet::MAX_FAST_PACKET_PAYLOAD;
use std::io::{self, BufWriter, Write};

// One byte more than a message can have.
const TOO_MANY: usize = MAX_FAST_PACKET_PAYLOAD + 1;

// A frame, None at the end, or why there is none.
type Answer = Result<Option<CanFrame>, CanIdBuildError>;

// ---- writing an answer

fn say_kind<W: Write>(out: &mut W, answer: Answer) -> io::Result<()> {
    match answer {
        Ok(Some(_)) => write!(out, "frame"),
        Ok(None) => write!(out, "End"),
        Err(error) => {
            write!(out, "refusal {}", error.number())?;
            if let CanIdBuildError::InvalidForFocusedMessage { pgn } = error {
                write!(out, ", {pgn}")?;
            }
            Ok(())
        }
    }
}

// The frame, or the zeros in its place.
fn say_frame<W: Write>(out: &mut W, answer: Answer) -> io::Result<()> {
    let frame = answer.unwrap_or(None).unwrap_or_default();
    write!(out, "{:08x} ", frame.id.0)?;
    for byte in frame.data {
        write!(out, "{byte:02x}")?;
    }
    write!(out, " {}", frame.len)
}

fn say_answer<W: Write>(
    out: &mut W,
    answer: Answer,
    frame_index: u8,
    bytes_sent: usize,
) -> io::Result<()> {
    say_kind(out, answer)?;
    write!(out, ": ")?;
    say_frame(out, answer)?;
    writeln!(out, ", then index {frame_index}, sent {bytes_sent}")
}

// ---- walking a message

// The first `len` bytes, or all where there are fewer.
fn first(bytes: &[u8], len: usize) -> &[u8] {
    &bytes[..len.min(bytes.len())]
}

// All answers up to End, at most 40.
fn walk<W: Write>(out: &mut W, started: FrameIterator, payload: &[u8]) -> io::Result<()> {
    let mut frames = started;
    for _ in 0..40 {
        let item = frames.next(payload);
        frames = item.iterator;
        say_answer(out, item.answer, frames.frame_index, frames.bytes_sent)?;
        if matches!(item.answer, Ok(None)) {
            break;
        }
    }
    Ok(())
}

// The message of a new builder, and the number that the caller holds then.
fn message<W: Write>(
    out: &mut W,
    title: &str,
    pgn: u32,
    destination: Option<u8>,
    payload: &[u8],
    sequence_id: u8,
) -> io::Result<()> {
    writeln!(out, "{title}")?;
    let pgns = [129029, 127489, 126208];
    let made = FastPacketBuilder::new(pgn, 35, destination, payload, &pgns, sequence_id);
    walk(out, made.builder.build(), payload)?;
    writeln!(out, "number handed back {}", made.sequence_id)
}

// One step on numbers.
fn at<W: Write>(
    out: &mut W,
    title: &str,
    builder: FastPacketBuilder,
    frame_index: u8,
    bytes_sent: usize,
    payload: &[u8],
) -> io::Result<()> {
    writeln!(out, "{title}")?;
    let next = builder.next_frame(frame_index, bytes_sent, payload);
    say_answer(out, next.answer, next.frame_index, next.bytes_sent)
}

// The bytes 0, 1, 2 and so on.
fn counting() -> [u8; TOO_MANY] {
    let mut bytes = [0; TOO_MANY];
    for (i, byte) in bytes.iter_mut().enumerate() {
        *byte = i as u8;
    }
    bytes
}

// ---- the values

fn messages<W: Write>(out: &mut W, bytes: &[u8]) -> io::Result<()> {
    message(
        out,
        "P8: listed, number 2, 01 02 03",
        127489,
        None,
        &[1, 2, 3],
        2,
    )?;
    message(out, "unlisted, 8 bytes", 127245, None, first(bytes, 8), 0)?;
    message(
        out,
        "unlisted, 9 bytes, number 9",
        127245,
        None,
        first(bytes, 9),
        9,
    )?;
    let longest = first(bytes, MAX_FAST_PACKET_PAYLOAD);
    message(out, "223 bytes, number 7", 127489, None, longest, 7)
}

fn refusals<W: Write>(out: &mut W, bytes: &[u8]) -> io::Result<()> {
    message(out, "empty payload", 127489, None, &[], 3)?;
    message(out, "60928 to nobody", 60928, None, first(bytes, 8), 4)?;
    message(out, "127489 to 16", 127489, Some(16), first(bytes, 9), 5)?;
    message(out, "60929 to 255", 60929, Some(255), first(bytes, 8), 6)?;
    message(out, "PGN 0x40000", 0x4_0000, None, first(bytes, 7), 8)?;
    message(out, "224 bytes", 127489, None, first(bytes, TOO_MANY), 255)
}

// A sequence and a priority, of which three bits are kept, and a destination.
fn setters<W: Write>(out: &mut W, bytes: &[u8]) -> io::Result<()> {
    let payload = first(bytes, 20);
    let made = FastPacketBuilder::new(126208, 35, None, payload, &[126208], 0);
    let set = made
        .builder
        .with_sequence_id(13)
        .with_priority(11)
        .to_destination(16);
    writeln!(out, "126208 to 16, priority 11, sequence 13")?;
    walk(out, set.build(), payload)
}

// Steps that no message comes to from its start.
fn steps<W: Write>(out: &mut W, bytes: &[u8]) -> io::Result<()> {
    let fast = FastPacketBuilder {
        pgn: 127489,
        source_address: 35,
        destination: None,
        priority: 6,
        sequence_id: 5,
        fast: true,
    };
    let raw = FastPacketBuilder {
        pgn: 127245,
        source_address: 35,
        destination: None,
        priority: 6,
        sequence_id: 0,
        fast: false,
    };
    let twenty = first(bytes, 20);
    let nine = first(bytes, 9);
    at(out, "index 255 comes round", fast, 255, 6, twenty)?;
    at(out, "index 255, no byte sent", fast, 255, 0, twenty)?;
    at(out, "index 40, 19 bytes sent", fast, 40, 19, twenty)?;
    at(out, "bytes sent past the length", fast, 3, 21, twenty)?;
    at(out, "empty payload at index 5", fast, 5, 9, &[])?;
    at(out, "empty payload at index 0, 9 sent", fast, 0, 9, &[])?;
    at(
        out,
        "raw, 2 bytes sent, index 9",
        raw,
        9,
        2,
        first(bytes, 5),
    )?;
    at(out, "marked not fast, 9 bytes", raw, 0, 0, nine)?;
    at(
        out,
        "marked not fast, 9 bytes, 3 sent, index 4",
        raw,
        4,
        3,
        nine,
    )
}

fn main(rt: HostRuntime) -> io::Result<()> {
    let mut out = BufWriter::new(rt.alloc(), io::writer(&rt))?;
    let bytes = counting();
    messages(&mut out, &bytes)?;
    refusals(&mut out, &bytes)?;
    setters(&mut out, &bytes)?;
    steps(&mut out, &bytes)?;
    out.flush()
}
