// Whether the arena has room for one message more.
ghost use Rattle.std.specs.Prelude.{◌≡◌};
ghost use Rattle.batch.specs.inner.Room.{no_room};

// Whether a message of n bytes has no room, where `used` of `room` bytes are taken; no sum is taken, so none is too large.
#[tactic(auto, using(crate::proofs::LengthLaws::room_left, crate::proofs::LengthLaws::overfull))]
pub(crate) fn no_room(room: usize, used: usize, n: usize) -> bool
    ensures { result ≡ no_room room used n }
{
    if used <= room { room - used < n } else { true }
}
