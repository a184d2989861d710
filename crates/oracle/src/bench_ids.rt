// What an identifier tells the bench: whose frame it is, and whether its source has claimed an address. It shares no code with `can_id`.
ghost use Rattle.std.specs.Prelude.{◌≡◌};
ghost use Rattle.oracle.specs.Ids.{bench_pgn, is_other};
ghost use Rattle.oracle.specs.inner.Tx.{claim_after};

use splitter::FRAME_BYTES;

// From this PF on an identifier has no destination.
const FIRST_BROADCAST_PF: u32 = 240;

// What the transmit test sends: claims of 60928, and messages of 127489.
const CLAIM_PGN: u32 = 60928;

pub(crate) const ENGINE_PGN: u32 = 127489;

#[tactic(auto, using(base::proofs::Cases::cases, base::proofs::Cases::said), unfolding(crate::specs::Ids::bench_pgn))]
fn pgn_of(id: u32) -> u32
    ensures { result ≡ bench_pgn id }
{
    if (id >> 16) % 0x100 < FIRST_BROADCAST_PF {
        (id >> 16) % 0x400 * 0x100
    } else {
        (id >> 8) % 0x4_0000
    }
}

// Whether a frame is of another source or PGN.
#[tactic(auto, using(base::proofs::Cases::cases, base::proofs::Cases::said), unfolding(crate::specs::Ids::is_other))]
pub(crate) fn is_other(source: u8, pgn: u32, id: u32) -> bool
    ensures { result ≡ is_other source pgn id }
{
    if id % 0x100 != u32::from(source) {
        return true;
    }
    pgn_of(id) != pgn
}

// Whether a source claimed its address before its first message, as far as some frames tell.
#[derive(Debug, Clone, Copy, PartialEq, Eq)]
pub(crate) enum Claim {
    Awaited,
    Made,
    Missed,
}

// The same after one frame more.
#[tactic(auto, using(crate::proofs::CheckLaws::claiming))]
pub(crate) fn claim_after(claim: Claim, source: u8, id: u32, len: usize) -> Claim
    ensures { result ≡ claim_after claim source id len }
{
    if claim != Claim::Awaited {
        return claim;
    }
    if !is_other(source, ENGINE_PGN, id) {
        return Claim::Missed;
    }
    if is_other(source, CLAIM_PGN, id) {
        return Claim::Awaited;
    }
    if len == FRAME_BYTES {
        Claim::Made
    } else {
        Claim::Awaited
    }
}
