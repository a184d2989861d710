// A frame that arrived, as the steps hear it: every form of the call turns its own record into that one.
ghost use Rattle.std.specs.Prelude.{◌≡◌};
ghost use Rattle.base.specs.Answer.{Answer, gives};
ghost use Rattle.session.specs.declared.Heard.{Heard};
ghost use Rattle.session.specs.declared.PoolKind.{PoolKind};
ghost use Rattle.session.specs.declared.PoolKind.TheVariants.{Original, Addressed};
ghost use Rattle.assembler.specs.Arrivals.{heard_of, cut_to, part_of, heard_by_id, of_heard, all_cut_to};

use crate::{Arrival, ArrivalById, WithLength};
use can_id::CanIdReadError;
use fast_packet::fill_short;
use session::{Heard, PoolKind};

// The bytes of a frame, where all were sent.
const ALL_BYTES: usize = 8;

// Only the forms below are heard: a form of another crate could hear what no frame says, and a second length could count bytes that the first one cut.
mod forms {
    use crate::{Arrival, ArrivalById, WithLength};

    pub trait Form {}

    impl Form for Arrival {}

    impl Form for ArrivalById {}

    impl<A: Whole> Form for WithLength<A> {}

    // A form of which all bytes were sent.
    pub trait Whole {}

    impl Whole for Arrival {}

    impl Whole for ArrivalById {}
}

// A form of the call.
pub trait Arrive: forms::Form {
    // whose entry it comes by
    ghost ENTRY: { PoolKind };
    // what the steps hear of it, or the refusal
    ghost hears: { Self → Answer Heard };

    // The kind of pool that hears it.
    const ENTRY: PoolKind;

    // What the steps hear of it.
    fn heard(self) -> Result<Heard, CanIdReadError>
        ensures { of_heard result ≡ hears self };
}

impl Arrive for Arrival {
    ghost ENTRY = { Original };

    ghost hears = { λ a. gives (heard_of a) };

    const ENTRY: PoolKind = PoolKind::Original;

    // The key of the original's kind has no destination.
    #[tactic(auto, unfolding(crate::specs::Arrivals::heard_of))]
    fn heard(self) -> Result<Heard, CanIdReadError> {
        let Arrival {
            now_ms,
            pgn,
            source_address,
            data,
        } = self;
        Ok(Heard {
            now_ms,
            pgn,
            source_address,
            part: 0,
            data,
            length: ALL_BYTES,
        })
    }
}

#[tactic(auto, unfolding(crate::specs::Arrivals::part_of))]
fn part_of(destination: Option<u8>) -> u16
    ensures { result ≡ part_of destination }
{
    match destination {
        None => 0,
        Some(address) => u16::from(address) + 1,
    }
}

impl Arrive for ArrivalById {
    ghost ENTRY = { Addressed };

    ghost hears = { heard_by_id };

    const ENTRY: PoolKind = PoolKind::Addressed;

    // Source, PGN and destination are the identifier's.
    #[tactic(auto, unfolding(crate::specs::Arrivals::heard_by_id, crate::specs::Arrivals::heard_from))]
    fn heard(self) -> Result<Heard, CanIdReadError> {
        let ArrivalById { now_ms, id, data } = self;
        let parts = id.read()?;
        Ok(Heard {
            now_ms,
            pgn: parts.pgn,
            source_address: parts.source_address,
            part: part_of(parts.destination),
            data,
            length: ALL_BYTES,
        })
    }
}

// A frame cut short: eight bytes, and how many of them were sent.
#[tactic(auto, unfolding(crate::specs::Arrivals::cut_to))]
fn cut_to(length: usize, heard: Heard) -> Heard
    ensures { result ≡ cut_to length heard }
{
    Heard {
        data: fill_short(heard.data, length),
        length: length.min(ALL_BYTES),
        ..heard
    }
}

impl<A: Arrive + forms::Whole> Arrive for WithLength<A> {
    ghost ENTRY = { A.ENTRY };

    ghost hears = { λ x. all_cut_to x.length (A.hears x.arrival) };

    const ENTRY: PoolKind = A::ENTRY;

    #[tactic(auto, unfolding(crate::specs::Arrivals::all_cut_to))]
    fn heard(self) -> Result<Heard, CanIdReadError> {
        let heard = self.arrival.heard()?;
        Ok(cut_to(self.length, heard))
    }
}
