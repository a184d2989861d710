// NMEA 2000 Fast Packet: what the builder and the assembler share.
#![tactic(auto)]

ghost use Rattle.std.specs.Prelude.{◌≡◌, ◌<◌, min, get_or, take};
ghost use Rattle.fast_packet.specs.FastPacket.{listed_in, filled_from};

// Maximum payload a Fast Packet can transport once reassembled.
pub const MAX_FAST_PACKET_PAYLOAD: usize = 223;

// What fills the bytes of a frame that no sender set.
pub const FILL: u8 = 0xFF;

// Whether a PGN stands anywhere in the lent list.
#[tactic(auto, using(crate::proofs::Laws::listed_found))]
pub fn is_listed(pgns: &[u32], pgn: u32) -> bool
    ensures { result ≡ listed_in pgn pgns.now }
{
    pgns.contains(&pgn)
}

// The byte at place i of a frame of which `len` bytes were sent.
#[tactic(auto, using(crate::proofs::Laws::kept_byte, crate::proofs::Laws::filled_byte))]
fn byte_or_fill(data: [u8; 8], len: usize, i: usize) -> u8
    requires { i < 8 }
    ensures { result ≡ get_or (take (min len 8) «data») i 255 }
{
    if i < len { data[i] } else { FILL }
}

// The first min(len, 8) bytes of a frame, and 0xFF after them. No copy_from_slice: eight places are filled without a call, where a copy of a length not known
// is one, and takes half as long again.
pub fn fill_short(data: [u8; 8], len: usize) -> [u8; 8]
    ensures { result ≡ filled_from len «data» }
{
    let mut out = [FILL; 8];
    for k in 0..8 {
        out[k] = byte_or_fill(data, len, k);
    }
    out
}
