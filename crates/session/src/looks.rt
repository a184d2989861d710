// What a frame finds at one head. The tests run without a branch, so that they stand as their definitions do.
ghost use Rattle.std.specs.Prelude.{◌≡◌};
ghost use Rattle.session.specs.declared.Mode.TheVariants.{AsOriginal};
ghost use Rattle.session.specs.Rules.{base, rules_by, part_allowed};
ghost use Rattle.session.specs.Heads.{impossible_head, has_key};
ghost use Rattle.session.specs.inner.Search.{looked};

use crate::{CONTINUATION_PAYLOAD, FIRST_FRAME_PAYLOAD, Found, Head, Heard, Mode, PoolKind};
use fast_packet::MAX_FAST_PACKET_PAYLOAD;

// The first PF whose PGNs go to nobody in particular.
const BROADCAST_PF: u32 = 240;

// What stands for the last destination, 255.
const LAST_PART: u16 = 256;

impl PoolKind {
    // Whether the key of a message with this PGN may have this part.
    #[tactic(auto, unfolding(crate::specs::Rules::part_allowed, base::specs::Pick::pick, can_id::specs::Layout::pgn_pf))]
    fn allows(self, pgn: u32, part: u16) -> bool
        ensures { result ≡ part_allowed self pgn part }
    {
        match self {
            PoolKind::Original => part == 0,
            PoolKind::Addressed => {
                if (pgn / 256) % 256 < BROADCAST_PF {
                    (1 <= part) & (part <= LAST_PART)
                } else {
                    part == 0
                }
            }
        }
    }
}

impl Head {
    #[tactic(auto, unfolding(crate::specs::Heads::has_key, crate::specs::Heads::head_key, crate::specs::Rules::base, crate::specs::Rules::rules_by, crate::specs::Rules::keys_equal, crate::specs::Rules::three_equal, crate::specs::Frames::key_of))]
    fn has_key(self, heard: Heard) -> bool
        ensures { result ≡ has_key base heard self }
    {
        self.in_progress
            & ((self.source_address == heard.source_address)
                & (self.pgn == heard.pgn)
                & (self.sequence_id == heard.sequence())
                & (self.part == heard.part))
    }

    // A head that no run of frames makes.
    #[tactic(auto, unfolding(crate::specs::Heads::impossible_head, crate::specs::Rules::rules_by))]
    fn is_impossible(self, kind: PoolKind) -> bool
        ensures { result ≡ impossible_head (rules_by kind AsOriginal) self }
    {
        let held = FIRST_FRAME_PAYLOAD + CONTINUATION_PAYLOAD * usize::from(self.last_frame_index);
        let fits = kind.allows(self.pgn, self.part);
        self.in_progress
            & ((7 < self.sequence_id)
                | ((self.expected_size < 7)
                    | ((MAX_FAST_PACKET_PAYLOAD < self.expected_size)
                        | ((self.current_size != held)
                            | (!(self.current_size < self.expected_size) | !fits)))))
    }
}

// What is found from place `i` on, where its head is `h` and `s` was found after it.
pub fn look(kind: PoolKind, mode: Mode, h: Head, s: Found, i: usize, heard: Heard) -> Found
    ensures { result ≡ looked (rules_by kind mode) heard i h s }
{
    let silent = mode.is_silent(heard.now_ms, h.last_seen_ms);
    let keyed = h.has_key(heard);
    let vacant = !h.in_progress | silent;
    let is_own = vacant & (h.source_address == heard.source_address);
    let key = if keyed { i } else { s.key };
    let live = if keyed & !silent { i } else { s.live };
    let own = if is_own { i } else { s.own };
    let free = if vacant { i } else { s.free };
    Found {
        bad: h.is_impossible(kind) | s.bad,
        key,
        live,
        own,
        free,
    }
}
