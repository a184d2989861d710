// The heads that a frame leaves.
ghost use Rattle.std.specs.Prelude.{◌≡◌};
ghost use Rattle.session.specs.Heads.{in_turn, cut_next, is_next, opened_head, reset_head, wanted, copied_head};

use crate::frames::NEXT_DATA;
use crate::{CONTINUATION_PAYLOAD, FIRST_FRAME_PAYLOAD, Head, Heard};

impl Head {
    #[tactic(auto, unfolding(crate::specs::Heads::opened_head))]
    pub(crate) fn opened(heard: Heard) -> Head
        ensures { result ≡ opened_head heard }
    {
        Head {
            in_progress: true,
            source_address: heard.source_address,
            sequence_id: heard.sequence(),
            last_frame_index: 0,
            pgn: heard.pgn,
            part: heard.part,
            expected_size: heard.size(),
            current_size: FIRST_FRAME_PAYLOAD,
            last_seen_ms: heard.now_ms,
        }
    }

    // Source and time stay: the next first frame of this source prefers the slot, whatever its destination.
    #[tactic(auto, unfolding(crate::specs::Heads::reset_head))]
    pub(crate) fn reset(self) -> Head
        ensures { result ≡ reset_head self }
    {
        Head {
            source_address: self.source_address,
            last_seen_ms: self.last_seen_ms,
            ..Head::default()
        }
    }

    // How many bytes of a continuation the session still wants.
    #[tactic(auto, unfolding(crate::specs::Heads::wanted))]
    pub(crate) fn wanted(self) -> usize
        ensures { result ≡ wanted self }
    {
        CONTINUATION_PAYLOAD.min(self.expected_size.saturating_sub(self.current_size))
    }

    #[tactic(auto, unfolding(crate::specs::Heads::in_turn))]
    fn is_in_turn(self, heard: Heard) -> bool
        ensures { result ≡ in_turn heard self }
    {
        usize::from(heard.index()) == usize::from(self.last_frame_index) + 1
    }

    // Whether a byte that the session needs was not sent.
    #[tactic(auto, unfolding(crate::specs::Heads::cut_next, crate::specs::Heads::wanted))]
    fn is_cut(self, heard: Heard) -> bool
        ensures { result ≡ cut_next heard self }
    {
        heard.length < NEXT_DATA + self.wanted()
    }

    // Whether it is the frame that the session waits for.
    #[tactic(auto, unfolding(crate::specs::Heads::is_next))]
    pub(crate) fn is_next(self, heard: Heard) -> bool
        ensures { result ≡ is_next heard self }
    {
        self.is_in_turn(heard) & !self.is_cut(heard)
    }

    #[tactic(auto, unfolding(crate::specs::Heads::copied_head, crate::specs::Heads::wanted))]
    pub(crate) fn copied(self, heard: Heard) -> Head
        ensures { result ≡ copied_head heard self }
    {
        Head {
            last_frame_index: heard.index(),
            current_size: self.current_size + self.wanted(),
            last_seen_ms: heard.now_ms,
            ..self
        }
    }
}
