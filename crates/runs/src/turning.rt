// One turn of the walk of a run.
ghost use Rattle.std.specs.Prelude.{◌≡◌, OnErr, OnOk, IsNone};
ghost use Rattle.runs.specs.Modes.{mode_number, turn_from, turn_taken_of};

use crate::mode::Mode;
use crate::stepping;
use crate::stepping::{Cursor, Step};
use octets::refusal::Refusal;

// An NLRI that a walk has read, or skipped: then the cursor just past it.
#[derive(Clone, Copy)]
pub enum Turn {
    Read(Step),
    Skipped(Cursor),
}

impl Cursor {
    // The walk's turn at the cursor: the NLRI of the run there is read or skipped. The walk stops at the run's end, where there is none, and at a refusal
    // that its mode does not skip.
    pub fn turn(self, afi: u16, mode: Mode, run: &[u8]) -> Result<Option<Turn>, Refusal>
        ensures { turn_taken_of result ≡ turn_from afi (mode_number mode) run.now self.at }
    {
        match self.step(afi, run) {
            Ok(step) => Ok(step.map(Turn::Read)),
            Err(refusal) => {
                if !mode.skips(refusal) {
                    return Err(refusal);
                }
                let at = stepping::past(self.at, run[self.at + 1] as usize);
                Ok(Some(Turn::Skipped(Cursor { at })))
            }
        }
    }
}

// The walk's turn at a cursor, for a caller that has the mode as a number of mvpn.h: every number but 0 is the old mode.
pub fn take_turn(cursor: Cursor, afi: u16, mode: u32, run: &[u8]) -> Result<Option<Turn>, Refusal>
    ensures { turn_taken_of result ≡ turn_from afi mode run.now cursor.at }
{
    cursor.turn(afi, Mode::from(mode), run)
}
