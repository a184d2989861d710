// Identifiers, read and built.
ghost use Rattle.std.specs.Prelude.{◌≡◌};
ghost use Rattle.ffi.specs.Ids.{IdRead, set_priority, set_destination, both_of, PartsBuilt, SetBuilt, BothBuilt};

use can_id::{CanId, CanIdBuilder};
use numbers::{answered, destination_from, told_read};

// 0 and priority, PGN, source and destination, 256 where there is none; or 8, and the parts as they were.
pub fn hf_can_id_read(id: u32, parts: &mut [u32; 4]) -> u32
    ensures { IdRead id parts.old result parts.new }
{
    told_read(CanId(id).read(), parts)
}

// From these parts as they are.
#[tactic(auto, unfolding(crate::specs::Ids::builder_of_parts))]
pub fn hf_can_id_build(
    priority: u8,
    pgn: u32,
    source_address: u8,
    destination: u16,
    value: &mut u32,
) -> u32
    ensures { PartsBuilt priority pgn source_address destination result value.new }
{
    let b = CanIdBuilder {
        priority,
        pgn,
        source_address,
        destination: destination_from(u64::from(destination)),
    };
    answered(b.build(), value)
}

#[tactic(auto, using(base::proofs::Cases::when_lt, base::proofs::Cases::when_ge), unfolding(crate::specs::Ids::set_priority))]
fn set_priority(b: CanIdBuilder, priority: u16) -> CanIdBuilder
    ensures { result ≡ set_priority b priority }
{
    match u8::try_from(priority) {
        Ok(priority) => b.with_priority(priority),
        Err(_) => b,
    }
}

#[tactic(auto, using(base::proofs::Cases::when_lt, base::proofs::Cases::when_ge), unfolding(crate::specs::Ids::set_destination))]
fn set_destination(b: CanIdBuilder, destination: u16) -> CanIdBuilder
    ensures { result ≡ set_destination b destination }
{
    match u8::try_from(destination) {
        Ok(address) => b.to_destination(address),
        Err(_) => b,
    }
}

// By the setters: a priority or a destination of 256 or more is not set.
#[tactic(auto, unfolding(crate::specs::Ids::set_of))]
pub fn hf_can_id_build_with(
    pgn: u32,
    source_address: u8,
    priority: u16,
    destination: u16,
    value: &mut u32,
) -> u32
    ensures { SetBuilt pgn source_address priority destination result value.new }
{
    let b = set_destination(
        set_priority(CanId::builder(pgn, source_address), priority),
        destination,
    );
    answered(b.build(), value)
}

#[tactic(auto, unfolding(crate::specs::Ids::both_of))]
fn both_set(pgn: u32, source_address: u8, priority: u8, destination: u8) -> CanIdBuilder
    ensures { result ≡ both_of pgn source_address priority destination }
{
    CanIdBuilder::new(pgn, source_address)
        .priority(priority)
        .destination(destination)
}

// By the setters' second names, both set.
pub fn hf_can_id_build_to(
    pgn: u32,
    source_address: u8,
    priority: u8,
    destination: u8,
    value: &mut u32,
) -> u32
    ensures { BothBuilt pgn source_address priority destination result value.new }
{
    let b = both_set(pgn, source_address, priority, destination);
    answered(b.build(), value)
}
