// The PGN list with a memory of what it said: it is read only where another PGN stands in the place of the one asked.
ghost use Rattle.std.specs.Prelude.{◌≡◌, ℕ, ◌<◌, false, slice_index, slice_index_or};
ghost use Rattle.fast_packet.specs.FastPacket.{listed_in};

use fast_packet::is_listed;

const PLACES: usize = 64;

// In each place the PGN that was asked there last, and whether it is listed.
#[derive(Drop)]
pub(crate) struct ListMemory<'a> {
    pub(crate) pgns: &'a [u32],
    pub(crate) asked: [u32; PLACES],
    pub(crate) known: [bool; PLACES],
    pub(crate) ghost right: { (k : ℕ) → k < 64 → slice_index_or known k false ≡ listed_in (slice_index asked k) pgns.now },
}

impl<'a> ListMemory<'a> {
    pub(crate) fn of(pgns: &'a [u32]) -> Self
        ensures { result.pgns.now ≡ pgns.now }
    {
        let zero = is_listed(pgns, 0);
        ListMemory {
            pgns,
            asked: [0; PLACES],
            known: [zero; PLACES],
        }
    }

    pub(crate) fn has(&mut self, pgn: u32) -> bool
        ensures { (result ≡ listed_in pgn self.old.pgns.now) × (self.new.pgns ≡ self.old.pgns) }
    {
        let place = pgn as usize % PLACES;
        if self.asked[place] == pgn {
            return self.known[place];
        }
        self.ask(place, pgn)
    }

    // What the list says; from here on it is known. Cold, since a bus has few PGNs: with this call inlined a frame that is not listed takes a fifth more time.
    #[cold]
    #[inline(never)]
    fn ask(&mut self, place: usize, pgn: u32) -> bool
        requires { place < 64 }
        ensures { (result ≡ listed_in pgn self.old.pgns.now) × (self.new.pgns ≡ self.old.pgns) }
    {
        let listed = is_listed(self.pgns, pgn);
        self.asked[place] = pgn;
        self.known[place] = listed;
        listed
    }
}
