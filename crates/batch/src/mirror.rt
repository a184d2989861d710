// What a search reads of the heads.
ghost use Rattle.std.specs.Prelude.{◌≡◌, ◌≤◌, ◌<◌, slice_set, slice_index_or};
ghost use Rattle.session.specs.Rules.{pool_limit};
ghost use Rattle.batch.specs.inner.Mirror.{InRange, Mirrors, packed, key_number, frame_key};

use session::{Head, Heard, POOL_LIMIT};

// ---- keys

// Above the sequence stands the PGN, the source above both, and the part above all.
const PGN_PLACE: u64 = 256;

const SOURCE_PLACE: u64 = 1_099_511_627_776;

const PART_PLACE: u64 = 281_474_976_710_656;

// A part that is no destination's; what is above it counts as it, so that a key fits in one number.
const NO_PART: u16 = 511;

#[tactic(auto, unfolding(crate::specs::inner::Mirror::packed))]
fn pack(source: u8, pgn: u32, sequence: u8, part: u16) -> u64
    ensures { (result ≡ packed source pgn sequence part) × InRange source pgn sequence }
{
    u64::from(part.min(NO_PART)) * PART_PLACE
        + u64::from(source) * SOURCE_PLACE
        + u64::from(pgn) * PGN_PLACE
        + u64::from(sequence)
        + 1
}

// The key of a slot in progress as one number above 0; 0 of an idle one.
#[tactic(auto, using(crate::proofs::SearchLaws::key_busy, crate::proofs::SearchLaws::key_idle))]
fn key_of(h: Head) -> u64
    ensures { (result ≡ key_number h) × InRange h.source_address h.pgn h.sequence_id }
{
    let key = pack(h.source_address, h.pgn, h.sequence_id, h.part);
    if h.in_progress { key } else { 0 }
}

#[tactic(auto, unfolding(crate::specs::inner::Mirror::frame_key, session::specs::Frames::sequence_of))]
pub(crate) fn key_of_frame(heard: Heard) -> u64
    ensures { (result ≡ frame_key heard) × InRange heard.source_address heard.pgn (slice_index_or heard.«data» 0 0) }
{
    let data = heard.data;
    pack(heard.source_address, heard.pgn, data[0] / 32, heard.part)
}

// ---- the rows

// Three rows side by side and no row of structs: a walk reads the keys alone, and is fast for it.
#[derive(Drop)]
pub(crate) struct Mirror {
    pub(crate) keys: [u64; POOL_LIMIT],
    pub(crate) owners: [u8; POOL_LIMIT],
    pub(crate) lasts: [u64; POOL_LIMIT],
    pub(crate) size: usize,
    pub(crate) ghost small: { size ≤ pool_limit },
}

impl Mirror {
    pub(crate) fn of(heads: [Head; POOL_LIMIT], size: usize) -> Self
        requires { size ≤ pool_limit }
        ensures { Mirrors pool_limit heads result.keys result.owners result.lasts × (result.size ≡ size) }
    {
        let mut m = Mirror {
            keys: [0; POOL_LIMIT],
            owners: [0; POOL_LIMIT],
            lasts: [0; POOL_LIMIT],
            size,
        };
        for i in 0..POOL_LIMIT {
            m.show(i, heads[i]);
        }
        m
    }

    // The head of slot g is another.
    pub(crate) fn show(&mut self, g: usize, h: Head)
        requires { g < pool_limit }
        ensures { (self.new.keys ≡ slice_set self.old.keys g (key_number h)) × (self.new.owners ≡ slice_set self.old.owners g h.source_address) × (self.new.lasts ≡ slice_set self.old.lasts g h.last_seen_ms) × (self.new.size ≡ self.old.size) × InRange h.source_address h.pgn h.sequence_id }
    {
        self.keys[g] = key_of(h);
        self.owners[g] = h.source_address;
        self.lasts[g] = h.last_seen_ms;
    }

    // Slot g goes on: only its time is another.
    pub(crate) fn hear(&mut self, g: usize, now_ms: u64)
        requires { g < pool_limit }
        ensures { (self.new.keys ≡ self.old.keys) × (self.new.owners ≡ self.old.owners) × (self.new.lasts ≡ slice_set self.old.lasts g now_ms) × (self.new.size ≡ self.old.size) }
    {
        self.lasts[g] = now_ms;
    }
}
