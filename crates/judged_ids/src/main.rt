// Takes apart the identifiers of its standard input, eight hex digits a line, and writes of each its priority, PGN, destination ('-' for none)
// and source. The file 'stdout' that this is held to was made by Wireshark's J1939 dissector: see tools/judge-identifiers.
#![tactic(auto)]

ghost use Rattle.std.specs.Prelude.{◌<◌};

use can_id::{CanId, CanIdParts};
use std::io::{self, BufReader, BufWriter, ErrorKind, Write};

// Eight digits and the end of the line.
const LINE: usize = 9;

// The value of an upper-case hex digit.
fn value(digit: u8) -> u8
    ensures { result < 16 }
{
    if digit < 58 {
        digit % 16
    } else {
        (digit % 16 + 9) % 16
    }
}

fn identifier(line: &[u8; LINE]) -> CanId {
    let mut bytes = [0u8; 4];
    for (i, byte) in bytes.iter_mut().enumerate() {
        *byte = value(line[2 * i]) * 16 + value(line[2 * i + 1]);
    }
    CanId(u32::from_be_bytes(bytes))
}

fn write_parts<W: Write>(out: &mut W, parts: CanIdParts) -> io::Result<()> {
    write!(out, " {} {}", parts.priority, parts.pgn)?;
    match parts.destination {
        None => write!(out, " -")?,
        Some(address) => write!(out, " {address}")?,
    }
    write!(out, " {}", parts.source_address)
}

// Fills the line from the input; false where the input ends before the line does.
fn read_line<R: io::Read>(input: &mut R, line: &mut [u8; LINE]) -> io::Result<bool> {
    match input.read_exact(line) {
        Ok(()) => Ok(true),
        Err(e) if e.kind() == ErrorKind::UnexpectedEof => Ok(false),
        Err(e) => Err(e),
    }
}

// Every identifier of the list is below 2^29; one that is not would have no parts, and its line would differ.
fn judge<W: Write>(out: &mut W, line: &[u8; LINE]) -> io::Result<()> {
    out.write_all(&line[..8])?;
    match identifier(line).read() {
        Ok(parts) => write_parts(out, parts)?,
        Err(_) => write!(out, " too wide")?,
    }
    writeln!(out)
}

fn main(rt: HostRuntime) -> io::Result<()> {
    let mut input = BufReader::new(rt.alloc(), rt.reader())?;
    let mut out = BufWriter::new(rt.alloc(), io::writer(&rt))?;
    let mut line = [0u8; LINE];
    for _ in 0..u64::MAX {
        if !read_line(&mut input, &mut line)? {
            break;
        }
        judge(&mut out, &line)?;
    }
    out.flush()
}
