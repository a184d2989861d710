// Copies of bytes between a frame, a session's buffer and the arena.
ghost use Rattle.std.specs.Prelude.{◌≡◌, ◌+◌, ◌*◌, ◌<◌, ◌≤◌, length, drop};
ghost use Rattle.std.proofs.Math.Seq.{paste};
ghost use Rattle.fast_packet.specs.FastPacket.{max_payload};
ghost use Rattle.session.specs.Rules.{pool_limit};
ghost use Rattle.assembler.specs.Making.{pool_bytes};

use assembler::POOL_BYTES;
use fast_packet::MAX_FAST_PACKET_PAYLOAD;
use session::{CONTINUATION_PAYLOAD, FIRST_DATA, FIRST_FRAME_PAYLOAD, NEXT_DATA, Plan};

// Puts the `n` bytes of `from` from place `start` on at place `at` of `to`. The assembler has the same for itself: no public call has a `requires`.
fn copy(to: &mut [u8], at: usize, from: &[u8], start: usize, n: usize)
    requires { (at + n ≤ length to.old) × (start + n ≤ length from.now) }
    ensures { to.new ≡ paste to.old at (drop start from.now) n }
{
    to[at..at + n].copy_from_slice(&from[start..start + n]);
}

// The same from a frame into a buffer. Nearly every frame has 6 bytes from place 2 on to store, or 7 from place 1 on: a copy of which the compiler knows
// length and place needs no call. By one `copy` of any length a frame of 8 sources with 26 bytes takes 23.7 ns in place of 22.4.
fn store(out: &mut [u8; POOL_BYTES], at: usize, frame: [u8; 8], from: usize, n: usize)
    requires { (at + n ≤ pool_bytes) × (from + n ≤ 8) }
    ensures { out.new ≡ paste out.old at (drop from frame) n }
{
    if n == CONTINUATION_PAYLOAD {
        if from == NEXT_DATA {
            copy(out, at, &frame, NEXT_DATA, CONTINUATION_PAYLOAD);
            return;
        }
    }
    if n == FIRST_FRAME_PAYLOAD {
        if from == FIRST_DATA {
            copy(out, at, &frame, FIRST_DATA, FIRST_FRAME_PAYLOAD);
            return;
        }
    }
    copy(out, at, &frame, from, n);
}

// Puts the message of a short first frame at place `at` of the arena.
pub(crate) fn deliver(arena: &mut [u8], at: usize, frame: [u8; 8], n: usize)
    requires { (at + n ≤ length arena.old) × (n ≤ 6) }
    ensures { arena.new ≡ paste arena.old at (drop 2 frame) n }
{
    copy(arena, at, &frame, FIRST_DATA, n);
}

// Keeps the seven bytes of a continuation at place `at` of the buffer of slot g.
pub(crate) fn keep(bytes: &mut [u8; POOL_BYTES], g: usize, at: usize, frame: [u8; 8])
    requires { (g < pool_limit) × (at + 7 ≤ max_payload) }
    ensures { bytes.new ≡ paste bytes.old (g * max_payload + at) (drop 1 frame) 7 }
{
    copy(
        bytes,
        g * MAX_FAST_PACKET_PAYLOAD + at,
        &frame,
        NEXT_DATA,
        CONTINUATION_PAYLOAD,
    );
}

// Carries a plan out on the bytes of slot g: the frame's bytes go to its buffer, and a message leaves the buffer for place `used` of the arena.
pub(crate) fn carry(
    bytes: &mut [u8; POOL_BYTES],
    arena: &mut [u8],
    g: usize,
    used: usize,
    d: Plan,
    frame: [u8; 8],
)
    requires { (g < pool_limit) × (d.at + d.count ≤ max_payload) × (d.from + d.count ≤ 8) × (d.whole ≤ max_payload) × (used + d.whole ≤ length arena.old) }
    ensures { (bytes.new ≡ paste bytes.old (g * max_payload + d.at) (drop d.from frame) d.count) × (arena.new ≡ paste arena.old used (drop (g * max_payload) bytes.new) d.whole) }
{
    let start = g * MAX_FAST_PACKET_PAYLOAD;
    store(bytes, start + d.at, frame, d.from, d.count);
    // a frame that opens a session brings no message
    if d.whole != 0 {
        copy(arena, used, bytes, start, d.whole);
    }
}
