// The modes of a walk (document 02, W-206, W-210).
ghost use Rattle.std.specs.Prelude.{◌≡◌};
ghost use Rattle.octets.specs.Refusals.{refusal_number};
ghost use Rattle.runs.specs.Modes.{mode_by, mode_number, is_skipped};

use octets::number::{GROUP, TYPE};
use octets::refusal::Refusal;

// What a walk does at an unknown route type, and at a Source Active route that is discarded: it skips the NLRI, or stops as at any other refusal.
#[derive(Clone, Copy, Debug, PartialEq, Eq)]
pub enum Mode {
    Skip = 0,
    Old = 1,
}

impl From<u32> for Mode {
    ghost from_gives = { λ number mode. mode ≡ mode_by number };

    // Every number but 0 stops at each refusal.
    fn from(number: u32) -> Mode {
        if number == 0 {
            return Mode::Skip;
        }
        Mode::Old
    }
}

impl Mode {
    // Whether a walk of this mode skips an NLRI that is refused so.
    pub fn skips(self, refusal: Refusal) -> bool
        ensures { result ≡ is_skipped (mode_number self) (refusal_number refusal) }
    {
        match self {
            Mode::Skip => match refusal {
                Refusal::Type => true,
                Refusal::Group => true,
                _ => false,
            },
            Mode::Old => false,
        }
    }
}

// Whether a walk skips an NLRI, for a caller that has the numbers of mvpn.h: of the mode, where every number but 0 is the old one, and of the refusal.
pub fn is_skipped(mode: u32, number: u32) -> bool
    ensures { result ≡ is_skipped mode number }
{
    mode == Mode::Skip as u32 && (number == TYPE || number == GROUP)
}
