// The walk of a run to its first stop.
ghost use Rattle.std.specs.Prelude.{◌≡◌};
ghost use Rattle.octets.specs.Refusals.{result_number};
ghost use Rattle.runs.specs.Walking.{walked_to, walked_with};
ghost use Rattle.runs.specs.Modes.{mode_number, walk_by};

use crate::mode::Mode;
use crate::stepping;
use crate::stepping::RUN;
use octets::number::DONE;
use octets::refusal;
use octets::refusal::Refusal;

// What a walk answers: the number and the offset of its stop, the count of NLRIs read before it, and the number of those skipped.
#[repr(C)]
#[derive(Clone, Copy)]
pub struct Walked {
    pub number: u32,
    pub count: u32,
    pub offset: u32,
    pub skipped: u32,
}

impl Walked {
    // Nothing read and nothing skipped, at the front of a run.
    pub fn nothing(number: u32) -> Walked
        ensures { result ≡ walked_to number 0 0 }
    {
        Walked {
            number,
            count: 0,
            offset: 0,
            skipped: 0,
        }
    }

    // Goes on from the front of a run to the first stop of the mode. Each turn goes by the number of the NLRI there and its Length octet, so that no
    // layout is made.
    fn go_on(&mut self, afi: u16, mode: Mode, run: &[u8]) -> Result<(), Refusal>
        requires { self.old ≡ walked_to 0 0 0 }
        ensures { walked_with (result_number result) self.new.count self.new.offset self.new.skipped ≡ walk_by afi (mode_number mode) run.now }
    {
        let kind = nlri::family_of(afi)?;
        if RUN < run.len() {
            return Err(Refusal::Long);
        }
        let mut at = 0;
        while at < run.len() {
            match nlri::check_front_fast(kind, octets::parts::after(run, at)) {
                Ok(()) => self.count += 1,
                Err(refusal) => {
                    if !mode.skips(refusal) {
                        return Err(refusal);
                    }
                    self.skipped += 1;
                }
            }
            at = stepping::past(at, run[at + 1] as usize);
            self.offset = at as u32;
        }
        Ok(())
    }
}

// Walks a run to the first stop of this mode.
pub fn walk(afi: u16, mode: u32, run: &[u8]) -> Walked
    ensures { result ≡ walk_by afi mode run.now }
{
    let mut walked = Walked::nothing(DONE);
    walked.number = refusal::number_of(walked.go_on(afi, Mode::from(mode), run));
    walked
}
