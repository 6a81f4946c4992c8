// A step through a run of NLRIs.
ghost use Rattle.std.specs.Prelude.{◌≡◌, ◌≤◌};
ghost use Rattle.runs.specs.Walking.{advanced, step_taken_of, step_from};

use nlri::{HEADER, Layout};
use octets::refusal::Refusal;

// The most octets of a run.
pub const RUN: usize = 4096;

// A place in a run. The run itself is lent to each step.
#[derive(Clone, Copy)]
pub struct Cursor {
    pub at: usize,
}

// An NLRI that a step has read, and the cursor just past it.
#[derive(Clone, Copy)]
pub struct Step {
    pub layout: Layout,
    pub next: Cursor,
}

impl Cursor {
    // The NLRI of the run at the cursor, with the next cursor; none at the run's end. FAMILY, LONG, SHORT for a cursor past the end, then what reading
    // the NLRI refuses.
    pub fn step(self, afi: u16, run: &[u8]) -> Result<Option<Step>, Refusal>
        ensures { step_taken_of result self.at ≡ step_from afi run.now self.at }
    {
        let kind = nlri::family_of(afi)?;
        if RUN < run.len() {
            return Err(Refusal::Long);
        }
        if self.at == run.len() {
            return Ok(None);
        }
        if run.len() < self.at {
            return Err(Refusal::Short);
        }
        match nlri::read_front(kind, octets::parts::after(run, self.at)) {
            Ok(layout) => {
                let at = past(self.at, layout.length);
                Ok(Some(Step {
                    layout,
                    next: Cursor { at },
                }))
            }
            Err(refusal) => Err(refusal),
        }
    }
}

// The place just past an NLRI that begins at `at` and has a body of `size` octets, by its Length.
pub(crate) fn past(at: usize, size: usize) -> usize
    requires { advanced at size ≤ 4096 }
    ensures { result ≡ advanced at size }
{
    at + (HEADER + size)
}
