// Building: refusals 2, 4, 5, 6 and 7.
use builder::FastPacketBuilder;
use can_id::CanIdBuildError;
use std::io::{self, Write};

fn first_answer<W: Write>(
    out: &mut W,
    words: &str,
    pgn: u32,
    destination: Option<u8>,
    payload: &[u8],
) -> io::Result<()> {
    write!(out, "{words}: ")?;
    let made = FastPacketBuilder::new(pgn, 35, destination, payload, &[127489], 0);
    match made.builder.next_frame(0, 0, payload).answer {
        Ok(Some(_)) => write!(out, "a frame")?,
        Ok(None) => write!(out, "End")?,
        Err(error) => {
            write!(out, "refusal {}", error.number())?;
            if let CanIdBuildError::InvalidForFocusedMessage { pgn } = error {
                write!(out, ": {pgn}")?;
            }
        }
    }
    writeln!(out)
}

pub(crate) fn refusals<W: Write>(out: &mut W) -> io::Result<()> {
    first_answer(out, "PGN 0x40000", 0x4_0000, None, b"1")?;
    first_answer(out, "PGN 60928 to nobody", 60928, None, b"1")?;
    first_answer(out, "PGN 127489 to 16", 127489, Some(16), b"1")?;
    first_answer(out, "PGN 60929 to 255", 60929, Some(255), b"1")?;
    first_answer(out, "an empty payload", 127489, None, b"")
}
