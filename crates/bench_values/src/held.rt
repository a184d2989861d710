// A pool with its counters: what it hears, by value and with the counters lent, and what is told of it. A length or a counter that is not told is 0.
use assembler::{Arrive, Pool, Processed, Received, process_frame, receive};
use session::Counters;
use std::io::{self, Write};

#[derive(Clone, Copy)]
pub(crate) struct Held {
    pub(crate) pool: Pool,
    pub(crate) counters: Counters,
}

fn tell<W: Write>(out: &mut W, words: &str, n: u64) -> io::Result<()> {
    if n == 0 {
        return Ok(());
    }
    write!(out, ", {words} {n}")
}

impl Held {
    // With no count yet.
    pub(crate) fn new(pool: Pool) -> Held {
        Held {
            pool,
            counters: Counters::default(),
        }
    }

    pub(crate) fn hear<A: Arrive>(&mut self, pgns: &[u32], arrival: A) -> Received {
        let answer = receive(self.pool, self.counters, pgns, arrival);
        self.pool = answer.pool;
        self.counters = answer.counters;
        answer
    }

    pub(crate) fn hear_lent<A: Arrive>(&mut self, pgns: &[u32], arrival: A) -> Processed {
        let answer = process_frame(self.pool, &mut self.counters, pgns, arrival);
        self.pool = answer.pool;
        answer
    }

    fn tell_counters<W: Write>(&self, out: &mut W) -> io::Result<()> {
        let counters = &self.counters;
        tell(
            out,
            "expired_sessions",
            u64::from(counters.expired_sessions),
        )?;
        tell(out, "pool_exhausted", u64::from(counters.pool_exhausted))?;
        tell(out, "rejected_frames", u64::from(counters.rejected_frames))?;
        tell(out, "lost_fragments", u64::from(counters.lost_fragments))?;
        tell(out, "unknown_pgn", u64::from(counters.unknown_pgn))
    }

    fn tell_slot<W: Write>(&self, out: &mut W, slot: usize) -> io::Result<()> {
        let Some(head) = self.pool.heads.get(slot) else {
            return Ok(());
        };
        let state = if head.in_progress {
            "in progress"
        } else {
            "idle"
        };
        write!(out, "; slot {slot} {state}, source {}", head.source_address)
    }

    fn tell_part<W: Write>(&self, out: &mut W, slot: usize) -> io::Result<()> {
        let Some(head) = self.pool.heads.get(slot) else {
            return Ok(());
        };
        write!(out, ", part {}", head.part)
    }

    fn tell_all<W: Write>(&self, out: &mut W, length: usize) -> io::Result<()> {
        tell(out, "length", length as u64)?;
        self.tell_counters(out)?;
        self.tell_slot(out, 0)
    }

    pub(crate) fn show<W: Write>(&self, out: &mut W, length: usize) -> io::Result<()> {
        self.tell_all(out, length)?;
        writeln!(out)
    }

    // The same with the time at which the slot was last heard.
    pub(crate) fn show_with_time<W: Write>(&self, out: &mut W, length: usize) -> io::Result<()> {
        self.tell_all(out, length)?;
        writeln!(out, ", time {}", self.pool.heads[0].last_seen_ms)
    }

    // The first two slots, with the part of their key.
    pub(crate) fn show_with_parts<W: Write>(&self, out: &mut W) -> io::Result<()> {
        self.tell_counters(out)?;
        for slot in 0..2 {
            self.tell_slot(out, slot)?;
            self.tell_part(out, slot)?;
        }
        writeln!(out)
    }
}

// A message of seven bytes: its first and its last tell whose it is.
pub(crate) fn tell_message<W: Write>(
    out: &mut W,
    length: usize,
    first: u8,
    last: u8,
) -> io::Result<()> {
    if length == 0 {
        return Ok(());
    }
    write!(out, ", length {length}, first byte {first}, last {last}")
}
