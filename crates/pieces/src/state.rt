// The reader's state: plain numbers, which only these calls write.
ghost use Rattle.std.specs.Prelude.{◌≡◌, ◌+◌, ◌≤◌};
ghost use Rattle.pieces.specs.Feeding.{stage_by, stage_number, started_as, start_of, answer_at_end, finish_of, long_of, counted_of, over_of};

use octets::number::{DONE, LONG, SHORT};
use runs::{RUN, Walked};

// The most octets of an NLRI that is not yet whole.
const LEFT: u32 = 256;

// What a reader does with octets.
#[derive(Clone, Copy, Debug, PartialEq, Eq)]
pub enum Stage {
    Reading = 0,
    Stopped = 1,
    Finished = 2,
}

impl From<u32> for Stage {
    ghost from_gives = { λ number stage. stage ≡ stage_by number };

    // Any greater number is finished too.
    fn from(number: u32) -> Stage {
        if number == 0 {
            return Stage::Reading;
        }
        if number == 1 {
            return Stage::Stopped;
        }
        Stage::Finished
    }
}

// A reader of a run that arrives in pieces: while it reads, `walked` is the walk's answer up to the NLRI that is unfinished; `total` counts the
// octets taken, `kept` those of the unfinished NLRI.
#[repr(C)]
#[derive(Clone, Copy)]
pub struct Pieces {
    pub walked: Walked,
    pub afi: u32,
    pub mode: u32,
    pub stage: u32,
    pub total: u32,
    pub kept: u32,
}

impl Pieces {
    // A reader just started; a bad AFI is refused here.
    pub fn start(afi: u16, mode: u32) -> Pieces
        ensures { result ≡ start_of afi mode }
    {
        match nlri::family_of(afi) {
            Ok(_) => Pieces::started(afi, mode, Stage::Reading, DONE),
            Err(refusal) => Pieces::started(afi, mode, Stage::Finished, refusal.number()),
        }
    }

    // A reader that has taken no octet.
    fn started(afi: u16, mode: u32, stage: Stage, number: u32) -> Pieces
        ensures { result ≡ started_as afi mode (stage_number stage) number }
    {
        Pieces {
            walked: Walked::nothing(number),
            afi: afi as u32,
            mode,
            stage: stage as u32,
            total: 0,
            kept: 0,
        }
    }

    // The walk's answer where the run ends.
    fn end(self) -> Walked
        ensures { result ≡ answer_at_end self }
    {
        match Stage::from(self.stage) {
            Stage::Reading => Walked {
                number: if self.kept == 0 { DONE } else { SHORT },
                ..self.walked
            },
            Stage::Stopped | Stage::Finished => self.walked,
        }
    }

    // The run has ended: the reader has the walk's answer, and only repeats it from now on.
    pub fn finish(self) -> Pieces
        ensures { result ≡ finish_of self }
    {
        Pieces {
            walked: self.end(),
            stage: Stage::Finished as u32,
            ..self
        }
    }

    // More than 4,096 octets in all with `size` more; or numbers that these calls never give.
    pub(crate) fn is_over(self, size: usize) -> bool
        ensures { result ≡ over_of self size }
    {
        RUN < size
            || RUN - size < self.total as usize
            || RUN < self.walked.count as usize
            || RUN < self.walked.skipped as usize
            || LEFT < self.kept
    }

    // The reader of a run of more than 4,096 octets. Its total stays over.
    pub(crate) fn too_long(self) -> Pieces
        ensures { result ≡ long_of self }
    {
        Pieces {
            walked: Walked::nothing(LONG),
            stage: Stage::Stopped as u32,
            total: RUN as u32 + 1,
            kept: 0,
            ..self
        }
    }

    // A reader that has stopped, with `size` more octets counted.
    pub(crate) fn counted(self, size: usize) -> Pieces
        requires { self.total + size ≤ 4096 }
        ensures { result ≡ counted_of self size }
    {
        Pieces {
            stage: Stage::Stopped as u32,
            total: self.total + size as u32,
            kept: 0,
            ..self
        }
    }
}
