// The lent rows of frames.
ghost use Rattle.std.specs.Prelude.{◌≡◌, ◌+◌, ◌*◌, ◌<◌, ◌≤◌, length, take, drop};
ghost use Rattle.batch.specs.Lengths.{too_short};
ghost use Rattle.batch.specs.Rows.{frame_in_rows};

use session::Heard;

fn eight(data: &[u8], at: usize) -> [u8; 8]
    requires { at + 8 ≤ length «data».now }
    ensures { result ≡ take 8 (drop at «data».now) }
{
    let mut out = [0u8; 8];
    out.copy_from_slice(&data[at..at + 8]);
    out
}

// A time, a PGN, a source and eight bytes for each frame, in rows as C lends them.
#[derive(Clone, Copy)]
pub struct FrameRows<'a> {
    pub times: &'a [u64],
    pub pgns: &'a [u32],
    pub sources: &'a [u8],
    pub data: &'a [u8],
}

impl<'a> FrameRows<'a> {
    // Whether a row is shorter than there are times for: one entry for each of them, and eight bytes.
    #[tactic(auto, using(crate::proofs::LengthLaws::short_rules))]
    pub(crate) fn too_short(&self, kinds: usize, lengths: usize) -> bool
        ensures { result ≡ too_short (length self.now.times.now) (length self.now.pgns.now) (length self.now.sources.now) (length self.now.«data».now) kinds lengths }
    {
        let n = self.times.len();
        self.pgns.len() < n
            || self.sources.len() < n
            || self.data.len() / 8 < n
            || kinds < n
            || lengths < n
    }

    #[tactic(auto, unfolding(crate::specs::Rows::frame_in_rows))]
    pub(crate) fn frame_at(&self, i: usize) -> Heard
        requires { (i < length self.now.times.now) × (i < length self.now.pgns.now) × (i < length self.now.sources.now) × (i * 8 + 8 ≤ length self.now.«data».now) }
        ensures { result ≡ frame_in_rows (record { times = self.now.times.now; pgns = self.now.pgns.now; sources = self.now.sources.now; bytes = self.now.«data».now }) i }
    {
        Heard {
            now_ms: self.times[i],
            pgn: self.pgns[i],
            source_address: self.sources[i],
            part: 0,
            data: eight(self.data, i * 8),
            length: 8,
        }
    }
}
