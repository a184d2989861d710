// A frame cut short, filled up.
ghost use Rattle.std.specs.Prelude.{◌≡◌};
ghost use Rattle.fast_packet.specs.FastPacket.{filled_from};

// In place.
#[unsafe(no_mangle)]
pub extern "C" fn hf_fill_short(data: &mut [u8; 8], len: usize)
    ensures { «data».new ≡ filled_from len «data».old }
{
    ffi::short_frames::hf_fill_short(data, len);
}
