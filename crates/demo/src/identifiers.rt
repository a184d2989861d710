// Identifiers: what is read of some, and what is built of their parts.
use can_id::{CanId, CanIdBuildError, CanIdBuilder};
use std::io::{self, Write};

fn show_destination<W: Write>(out: &mut W, destination: Option<u8>) -> io::Result<()> {
    match destination {
        None => write!(out, "to everybody"),
        Some(address) => write!(out, "to {address}"),
    }
}

fn show_reading<W: Write>(out: &mut W, id: CanId) -> io::Result<()> {
    write!(out, "  0x{:08x}  ", id.0)?;
    match id.read() {
        Ok(parts) => {
            write!(out, "priority {}, PGN {}", parts.priority, parts.pgn)?;
            write!(out, ", from {} ", parts.source_address)?;
            show_destination(out, parts.destination)?;
        }
        Err(error) => write!(out, "refusal {}", error.number())?,
    }
    writeln!(out)
}

fn show_built<W: Write>(out: &mut W, builder: CanIdBuilder) -> io::Result<()> {
    write!(
        out,
        "  PGN {} from {} ",
        builder.pgn, builder.source_address
    )?;
    show_destination(out, builder.destination)?;
    match builder.build() {
        Ok(id) => write!(out, ": 0x{:08x}", id.0)?,
        Err(error) => {
            write!(out, ": refusal {}", error.number())?;
            if let CanIdBuildError::InvalidForFocusedMessage { pgn } = error {
                write!(out, ", PF {pgn}")?;
            }
        }
    }
    writeln!(out)
}

pub(crate) fn show<W: Write>(out: &mut W) -> io::Result<()> {
    writeln!(out, "Identifiers taken apart")?;
    for id in [0x19F2_0123, 0x18EE_FF23, 0x0DED_1023, 0x99F2_0123] {
        show_reading(out, CanId(id))?;
    }
    writeln!(out, "Identifiers built")?;
    show_built(out, CanId::builder(127489, 35))?;
    show_built(out, CanId::builder(60928, 35).to_destination(255))?;
    show_built(out, CanId::builder(127489, 35).to_destination(16))
}
