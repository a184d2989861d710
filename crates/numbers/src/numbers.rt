// Numbers for what C does not have: a destination that may be missing, and a refusal.
ghost use Rattle.std.specs.Prelude.{◌≡◌, ◌%◌};
ghost use Rattle.base.specs.Pick.{pick};
ghost use Rattle.can_id.specs.Build.{error_carries};
ghost use Rattle.numbers.specs.Numbers.{laid_on, to_address, address_of, carries_of, BuiltLeft, ReadLeft};

use can_id::{CanId, CanIdBuildError, CanIdParts, CanIdReadError};

#[tactic(auto, using(crate::proofs::Laws::flag_is))]
pub(crate) fn flag(x: bool) -> u64
    ensures { result ≡ pick x 1 0 }
{
    u64::from(x)
}

// The number to be written over one that was read: that one itself, where what was read from it is still right.
#[tactic(auto, using(base::proofs::Cases::when_eq, base::proofs::Cases::when_ne), unfolding(crate::specs::Numbers::laid_on))]
pub(crate) fn laid_on(old: u64, read: u64, new: u64) -> u64
    ensures { result ≡ laid_on old read new }
{
    if read == new { old } else { new }
}

// An address, or none from 256 on.
#[tactic(auto, using(crate::proofs::Laws::address_is))]
pub fn destination_from(n: u64) -> Option<u8>
    ensures { result ≡ to_address n }
{
    u8::try_from(n).ok()
}

pub fn address_number(destination: Option<u8>) -> u16
    ensures { result ≡ address_of destination }
{
    match destination {
        Some(address) => u16::from(address),
        None => 256,
    }
}

// 8, or 0 and the four parts in their place.
#[tactic(auto, unfolding(crate::specs::Numbers::parts_with))]
pub fn told_read(read: Result<CanIdParts, CanIdReadError>, parts: &mut [u32; 4]) -> u32
    ensures { ReadLeft read parts.old result parts.new }
{
    match read {
        Ok(p) => {
            *parts = [
                u32::from(p.priority),
                p.pgn,
                u32::from(p.source_address),
                u32::from(address_number(p.destination)),
            ];
            0
        }
        Err(error) => u32::from(error.number()),
    }
}

pub(crate) fn error_carries(error: CanIdBuildError) -> u32
    ensures { result ≡ carries_of (error_carries error) }
{
    match error {
        CanIdBuildError::InvalidForFocusedMessage { pgn } => u32::from(pgn),
        _ => 0,
    }
}

// The refusal's number or 0; in `value` the identifier, or what the refusal carries.
pub fn answered(built: Result<CanId, CanIdBuildError>, value: &mut u32) -> u32
    ensures { BuiltLeft built result value.new }
{
    match built {
        Ok(id) => {
            *value = id.0;
            0
        }
        Err(error) => {
            *value = error_carries(error);
            u32::from(error.number())
        }
    }
}
