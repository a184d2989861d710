// A gateway: a pool with its counters, and what is told of its answers; and two of them side by side.
use assembler::{Arrive, Pool, Processed, process_frame};
use session::{Counters, Kind, Mode, PoolKind};
use std::io::{self, Write};

#[derive(Drop)]
pub(crate) struct Gateway {
    pool: Pool,
    counters: Counters,
}

impl Gateway {
    pub(crate) fn new(size: usize, mode: Mode, kind: PoolKind) -> Gateway {
        Gateway {
            pool: Pool::with_kind(size, mode, kind).unwrap_or_else(|refused| refused.pool),
            counters: Counters::default(),
        }
    }

    // One frame is heard, with this list of Fast Packet PGNs.
    pub(crate) fn hear<A: Arrive>(&mut self, pgns: &[u32], arrival: A) -> Processed {
        let answer = process_frame(self.pool, &mut self.counters, pgns, arrival);
        self.pool = answer.pool;
        answer
    }

    // The name says why a frame was not taken; beside it, the counter that went up.
    pub(crate) fn tell_kind<W: Write>(&self, out: &mut W, kind: Kind) -> io::Result<()> {
        let counters = &self.counters;
        match kind {
            Kind::ImpossiblePool | Kind::TooWide => write!(out, "refusal {}", kind.number()),
            Kind::NotListed => write!(out, "{kind:?}, unknown_pgn {}", counters.unknown_pgn),
            Kind::Rejected => write!(
                out,
                "{kind:?}, rejected_frames {}",
                counters.rejected_frames
            ),
            Kind::PoolFull => write!(out, "{kind:?}, pool_exhausted {}", counters.pool_exhausted),
            Kind::Lost => write!(out, "{kind:?}, lost_fragments {}", counters.lost_fragments),
            Kind::FragmentConsumed | Kind::MessageComplete => write!(out, "{kind:?}"),
        }
    }

    pub(crate) fn tell_counters<W: Write>(&self, out: &mut W) -> io::Result<()> {
        let counters = &self.counters;
        write!(out, "expired_sessions {}", counters.expired_sessions)?;
        write!(out, ", pool_exhausted {}", counters.pool_exhausted)?;
        write!(out, ", lost_fragments {}", counters.lost_fragments)
    }
}

// The same bus heard by two pools: one as the original's, one made otherwise.
#[derive(Drop)]
pub(crate) struct Both {
    pub(crate) as_original: Gateway,
    pub(crate) otherwise: Gateway,
}

impl Both {
    pub(crate) fn show_counters<W: Write>(&self, out: &mut W) -> io::Result<()> {
        write!(out, "  ")?;
        self.as_original.tell_counters(out)?;
        write!(out, " | ")?;
        self.otherwise.tell_counters(out)?;
        writeln!(out)
    }
}
