// A row of frames to be read: frame records as they are lent, or separate slices.
ghost use Rattle.std.specs.Prelude.{◌≡◌, ◌≤◌, ◌<◌, ◌+◌, List, length, drop, get_or};
ghost use Rattle.splitter.specs.Frames.{eight};
ghost use Rattle.splitter.specs.declared.Frame.{Frame};
ghost use Rattle.oracle.specs.Rows.{no_frame, row_in};

use splitter::{FRAME_BYTES, Frame, frame_count};

// What stands for a frame that a row does not have.
const NO_FRAME: Frame = Frame {
    id: 0,
    data: [0; 8],
    len: 0,
};

// A lent row of frames, whichever way its memory holds them.
pub trait FrameRow {
    ghost frames: { Self → List Frame };

    // How many frames it has; no memory holds more than this of eight bytes each.
    fn count(&self) -> usize
        ensures { (result ≡ length (frames self.now)) × (result ≤ 0x2000_0000_0000_0000) };

    // The frame at place i; zeros where the row has none there.
    fn frame(&self, i: usize) -> Frame
        ensures { result ≡ get_or (frames self.now) i no_frame };
}

impl<'a> FrameRow for &'a [Frame] {
    ghost frames = { λ s. s.now };

    fn count(&self) -> usize {
        self.len()
    }

    fn frame(&self, i: usize) -> Frame {
        if i < self.len() { self[i] } else { NO_FRAME }
    }
}

// Separate slices: frame i has the identifier at i, the eight bytes from 8 * i on, and the length at i. The shortest decides how many there are.
#[derive(Clone, Copy)]
pub struct SliceRow<'a> {
    pub ids: &'a [u32],
    pub bytes: &'a [u8],
    pub lens: &'a [usize],
}

fn eight_in(bytes: &[u8], at: usize) -> [u8; 8]
    requires { at + 8 ≤ length bytes.now }
    ensures { result ≡ eight (drop at bytes.now) }
{
    [
        bytes[at],
        bytes[at + 1],
        bytes[at + 2],
        bytes[at + 3],
        bytes[at + 4],
        bytes[at + 5],
        bytes[at + 6],
        bytes[at + 7],
    ]
}

impl<'a> FrameRow for SliceRow<'a> {
    ghost frames = { λ s. row_in s.ids.now s.bytes.now s.lens.now };

    fn count(&self) -> usize {
        frame_count(self.ids.len(), self.bytes.len(), self.lens.len())
    }

    fn frame(&self, i: usize) -> Frame {
        if self.count() <= i {
            return NO_FRAME;
        }
        Frame {
            id: self.ids[i],
            data: eight_in(self.bytes, FRAME_BYTES * i),
            len: self.lens[i],
        }
    }
}
