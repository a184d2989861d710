// The search for a slot.
ghost use Rattle.std.specs.Prelude.{◌≡◌, ◌<◌, true, IfSome, slice_index_or, unwrap_or};
ghost use Rattle.session.specs.Rules.{pool_limit};
ghost use Rattle.batch.specs.inner.Mirror.{InRange, frame_key, sought};

use crate::mirror::{Mirror, key_of_frame};
use fast_packet::MAX_FAST_PACKET_PAYLOAD;
use session::{FIRST_FRAME_PAYLOAD, Heard, Mode};

impl Mirror {
    // The place that a frame of a listed PGN takes, if it takes one.
    pub(crate) fn seek(&self, mode: Mode, heard: Heard) -> Option<usize>
        ensures { (unwrap_or result pool_limit ≡ sought mode self.now.keys self.now.owners self.now.lasts self.now.size true (frame_key heard) heard) × IfSome result (λ g. g < pool_limit) × InRange heard.source_address heard.pgn (slice_index_or heard.«data» 0 0) }
    {
        let key = key_of_frame(heard);
        let data = heard.data;
        if data[0] % 32 != 0 {
            return self.first_live(mode, key, heard.now_ms);
        }
        let announced = data[1];
        if (announced <= FIRST_FRAME_PAYLOAD as u8)
            | ((MAX_FAST_PACKET_PAYLOAD as u8) < announced)
        {
            return None;
        }
        self.choose(mode, key, heard.source_address, heard.now_ms)
    }
}
