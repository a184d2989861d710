// Replays what the original answered, with no Rust at hand. Standard input is a list of calls, a line of 44 characters each, numbers in upper-case hex:
//   a digit, 0 to 9 and a to w for 10 to 32: a fresh pool of that size and zero counters, and then this frame; a dot: a frame on the pool that the
//     last call left. Then time (16), PGN (8), source (2), eight bytes (16);
//   M: the mode of the pools that are made from here on (2, 00 as the original and 01 where a clock that was set back is silence), dots; it is no
//     call, and without it the mode is as the original;
//   B: the next frame of a builder: PGN (8), source (2), destination (4, 0100 for none), priority (2), sequence (2), fast (2), frame index (2), bytes
//     sent (4), payload length (4), dots; byte i of the payload is (7 i + 1) modulo 256.
// The file stdout that this is held to was written by the original, its Ignored under the name of the counter that it raised; it has no mode 01, and was
// asked for it on a clock of its own. host/diff/src/bin/replay_list.rs makes both.
#![tactic(auto)]

ghost use Rattle.std.specs.Prelude.{◌+◌, ◌*◌, ◌<◌, ◌≤◌};

use assembler::{Arrival, Pool, Processed, process_frame};
use builder::{FastPacketBuilder, Next};
use can_id::CanFrame;
use session::{Counters, Mode};
use std::io::{self, BufReader, BufWriter, ErrorKind, Read, Write};

const LINE: usize = 44;

const LONGEST: usize = 300;

// ---- reading

// The value of an upper-case hex digit.
fn value(digit: u8) -> u8
    ensures { result < 16 }
{
    if digit < 58 {
        digit % 16
    } else {
        (digit % 16 + 9) % 16
    }
}

// N bytes, two digits each, from some place of the line on.
fn bytes<const N: usize>(line: &[u8; LINE], at: usize) -> [u8; N]
    requires { at + 2 * N ≤ 44 }
{
    let mut out = [0; N];
    for (i, byte) in out.iter_mut().enumerate() {
        *byte = value(line[at + 2 * i]) * 16 + value(line[at + 2 * i + 1]);
    }
    out
}

fn byte(line: &[u8; LINE], at: usize) -> u8
    requires { at + 2 ≤ 44 }
{
    bytes::<1>(line, at)[0]
}

fn half(line: &[u8; LINE], at: usize) -> u16
    requires { at + 4 ≤ 44 }
{
    u16::from_be_bytes(bytes(line, at))
}

fn word(line: &[u8; LINE], at: usize) -> u32
    requires { at + 8 ≤ 44 }
{
    u32::from_be_bytes(bytes(line, at))
}

// ---- writing

fn write_bytes<W: Write>(out: &mut W, bytes: &[u8]) -> io::Result<()> {
    for byte in bytes {
        write!(out, "{byte:02X}")?;
    }
    Ok(())
}

// ---- frames heard

// A pool with its counters, and the mode of the pools that are made from here on.
#[derive(Drop)]
struct State {
    mode: Mode,
    pool: Pool,
    counters: Counters,
}

fn fresh(mode: Mode, size: usize) -> State {
    State {
        mode,
        pool: Pool::with_mode(size, mode).unwrap_or_else(|refused| refused.pool),
        counters: Counters::default(),
    }
}

// The value of a digit that goes on after 9 with a.
fn size_of(digit: u8) -> usize {
    if digit < b'a' {
        usize::from(digit % 16)
    } else {
        usize::from(digit - b'a') + 10
    }
}

fn arrival_in(line: &[u8; LINE]) -> Arrival {
    Arrival {
        now_ms: u64::from_be_bytes(bytes(line, 1)),
        pgn: word(line, 17),
        source_address: byte(line, 25),
        data: bytes(line, 27),
    }
}

fn write_answer<W: Write>(out: &mut W, answer: &Processed, counters: &Counters) -> io::Result<()> {
    write!(out, "{:?}", answer.kind)?;
    write!(out, " {}", counters.expired_sessions)?;
    write!(out, " {}", counters.pool_exhausted)?;
    write!(out, " {}", counters.rejected_frames)?;
    write!(out, " {}", counters.lost_fragments)?;
    write!(out, " {} ", counters.unknown_pgn)?;
    for byte in answer.payload.iter().take(answer.length) {
        write!(out, "{byte:02X}")?;
    }
    writeln!(out)
}

fn hear<W: Write>(out: &mut W, state: &mut State, line: &[u8; LINE]) -> io::Result<()> {
    let answer = process_frame(
        state.pool,
        &mut state.counters,
        &[127489, 129029],
        arrival_in(line),
    );
    state.pool = answer.pool;
    write_answer(out, &answer, &state.counters)
}

// ---- frames built

// Without a frame there are zeros in its place.
fn write_next<W: Write>(out: &mut W, next: Next) -> io::Result<()> {
    let frame = match next.answer {
        Ok(Some(frame)) => {
            write!(out, "Frame")?;
            frame
        }
        Ok(None) => {
            write!(out, "End")?;
            CanFrame::default()
        }
        Err(error) => {
            write!(out, "Refused {}", error.number())?;
            CanFrame::default()
        }
    };
    write!(out, " {} ", frame.id.0)?;
    write_bytes(out, &frame.data)?;
    writeln!(
        out,
        " {} {} {}",
        frame.len, next.frame_index, next.bytes_sent
    )
}

fn payload() -> [u8; LONGEST] {
    let mut payload = [0; LONGEST];
    let mut value: u8 = 1;
    for byte in payload.iter_mut() {
        *byte = value;
        value = value.wrapping_add(7);
    }
    payload
}

fn build<W: Write>(out: &mut W, line: &[u8; LINE]) -> io::Result<()> {
    let builder = FastPacketBuilder {
        pgn: word(line, 1),
        source_address: byte(line, 9),
        destination: u8::try_from(half(line, 11)).ok(),
        priority: byte(line, 15),
        sequence_id: byte(line, 17),
        fast: byte(line, 19) != 0,
    };
    let sent = usize::from(half(line, 23));
    let length = usize::from(half(line, 27)).min(LONGEST);
    write_next(
        out,
        builder.next_frame(byte(line, 21), sent, &payload()[..length]),
    )
}

// ---- the list

// Fills the line from the input; false where the input ends before the line does.
fn read_line<R: Read>(input: &mut R, line: &mut [u8; LINE]) -> io::Result<bool> {
    match input.read_exact(line) {
        Ok(()) => Ok(true),
        Err(e) if e.kind() == ErrorKind::UnexpectedEof => Ok(false),
        Err(e) => Err(e),
    }
}

fn turn<W: Write>(out: &mut W, state: &mut State, line: &[u8; LINE]) -> io::Result<()> {
    match line[0] {
        b'B' => build(out, line),
        b'M' => {
            state.mode = if byte(line, 1) == 0 {
                Mode::AsOriginal
            } else {
                Mode::SetBackIsSilence
            };
            Ok(())
        }
        b'.' => hear(out, state, line),
        digit => {
            *state = fresh(state.mode, size_of(digit));
            hear(out, state, line)
        }
    }
}

fn main(rt: HostRuntime) -> io::Result<()> {
    let mut input = BufReader::new(rt.alloc(), rt.reader())?;
    let mut out = BufWriter::new(rt.alloc(), io::writer(&rt))?;
    let mut state = fresh(Mode::AsOriginal, 4);
    let mut line = [0u8; LINE];
    for _ in 0..u64::MAX {
        if !read_line(&mut input, &mut line)? {
            break;
        }
        turn(&mut out, &mut state, &line)?;
    }
    out.flush()
}
