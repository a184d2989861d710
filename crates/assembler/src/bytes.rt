// Copies of bytes between a frame, a session's buffer and a message.
ghost use Rattle.std.specs.Prelude.{◌≡◌, ◌+◌, ◌≤◌, length, drop};
ghost use Rattle.std.proofs.Math.Seq.{paste};

// Puts the `n` bytes of `from` from place `start` on at place `at` of `to`.
pub(crate) fn copy(to: &mut [u8], at: usize, from: &[u8], start: usize, n: usize)
    requires { (at + n ≤ length to.old) × (start + n ≤ length from.now) }
    ensures { to.new ≡ paste to.old at (drop start from.now) n }
{
    to[at..at + n].copy_from_slice(&from[start..start + n]);
}
