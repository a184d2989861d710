// Rows of frames as records.
ghost use Rattle.std.specs.Prelude.{◌≤◌};

use oracle::{FrameRow, SliceRow};
use splitter::Frame;

// As many frames as a claim and two messages of 26 bytes take.
pub(crate) const ROW_FRAMES: usize = 9;

const BLANK: Frame = Frame {
    id: 0,
    data: [0; 8],
    len: 0,
};

pub(crate) fn blank_row() -> [Frame; ROW_FRAMES] {
    [BLANK; ROW_FRAMES]
}

// How many frames separate slices have, up to nine.
pub(crate) fn count_of(slices: SliceRow) -> usize
    ensures { result ≤ 9 }
{
    slices.count().min(ROW_FRAMES)
}

// The first nine frames of separate slices, and blank ones after them.
pub(crate) fn row_of(slices: SliceRow) -> [Frame; ROW_FRAMES] {
    let mut row = blank_row();
    for i in 0..slices.count().min(ROW_FRAMES) {
        row[i] = slices.frame(i);
    }
    row
}
