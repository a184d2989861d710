// Identifiers, read and built.
ghost use Rattle.ffi.specs.Ids.{IdRead, PartsBuilt, SetBuilt, BothBuilt};

// 0 and priority, PGN, source and destination, 256 where there is none; or 8, and the parts as they were.
#[unsafe(no_mangle)]
pub extern "C" fn hf_can_id_read(id: u32, parts: &mut [u32; 4]) -> u32
    ensures { IdRead id parts.old result parts.new }
{
    ffi::ids::hf_can_id_read(id, parts)
}

// From these parts as they are.
#[unsafe(no_mangle)]
pub extern "C" fn hf_can_id_build(
    priority: u8,
    pgn: u32,
    source_address: u8,
    destination: u16,
    value: &mut u32,
) -> u32
    ensures { PartsBuilt priority pgn source_address destination result value.new }
{
    ffi::ids::hf_can_id_build(priority, pgn, source_address, destination, value)
}

// By the setters: a priority or a destination of 256 or more is not set.
#[unsafe(no_mangle)]
pub extern "C" fn hf_can_id_build_with(
    pgn: u32,
    source_address: u8,
    priority: u16,
    destination: u16,
    value: &mut u32,
) -> u32
    ensures { SetBuilt pgn source_address priority destination result value.new }
{
    ffi::ids::hf_can_id_build_with(pgn, source_address, priority, destination, value)
}

// By the setters' second names, both set.
#[unsafe(no_mangle)]
pub extern "C" fn hf_can_id_build_to(
    pgn: u32,
    source_address: u8,
    priority: u8,
    destination: u8,
    value: &mut u32,
) -> u32
    ensures { BothBuilt pgn source_address priority destination result value.new }
{
    ffi::ids::hf_can_id_build_to(pgn, source_address, priority, destination, value)
}
