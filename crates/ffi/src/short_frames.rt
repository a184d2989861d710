// A frame cut short, filled up.
ghost use Rattle.std.specs.Prelude.{◌≡◌};
ghost use Rattle.fast_packet.specs.FastPacket.{filled_from};

use fast_packet::fill_short;

// In place.
pub fn hf_fill_short(data: &mut [u8; 8], len: usize)
    ensures { «data».new ≡ filled_from len «data».old }
{
    *data = fill_short(*data, len);
}
