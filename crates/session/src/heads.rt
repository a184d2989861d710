// When a session is silent, in each mode, and a fresh head.
ghost use Rattle.std.specs.Prelude.{◌≡◌};
ghost use Rattle.session.specs.Rules.{silent_by};
ghost use Rattle.session.specs.Heads.{fresh_head};

use crate::{Head, Mode, SESSION_TIMEOUT_MS};

impl Mode {
    // Whether a session whose latest frame came at `last` is silent at `time`. By the readings alone a clock that was set back means no silence.
    #[tactic(auto, unfolding(crate::specs::Rules::silent_by, crate::specs::Rules::silence))]
    pub(crate) fn is_silent(self, time: u64, last: u64) -> bool
        ensures { result ≡ silent_by self time last }
    {
        let late = SESSION_TIMEOUT_MS < time.saturating_sub(last);
        match self {
            Mode::AsOriginal => late,
            Mode::SetBackIsSilence => late | (time < last),
        }
    }
}

#[tactic(auto, unfolding(crate::specs::Heads::fresh_head))]
pub fn fresh_head() -> Head
    ensures { result ≡ fresh_head }
{
    Head::default()
}
