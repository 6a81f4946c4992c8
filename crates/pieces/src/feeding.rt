// Feeding: the octets of a piece up to the end of one NLRI are taken, judged and given.
ghost use Rattle.std.specs.Prelude.{◌≡◌, ◌+◌, ◌≤◌, length};
ghost use Rattle.octets.specs.Outputs.{Leaves};
ghost use Rattle.octets.specs.Refusals.{result_number};
ghost use Rattle.pieces.specs.Feeding.{stage_number, past_of, feed_of, read_on_of, settled_of, judged_of, kept_of, Within};

use crate::reading;
use crate::reading::UnfinishedNlri;
use crate::state::{Pieces, Stage};
use octets::number::DONE;
use octets::refusal::Refusal;
use runs::{Mode, Walked};

// What a feed answers: the reader afterwards, the octets taken of the piece, and the size of the NLRI that is now whole at the front of the lent
// octets, or 0.
#[repr(C)]
#[derive(Clone, Copy)]
pub struct Fed {
    pub pieces: Pieces,
    pub taken: usize,
    pub size: usize,
}

impl Pieces {
    // Hands over a piece: octets of it are taken up to the end of one NLRI.
    pub fn feed(self, unfinished: &mut UnfinishedNlri, piece: &[u8]) -> Fed
        ensures { Leaves (feed_of self unfinished.old piece.now) result unfinished.new }
    {
        let stage = Stage::from(self.stage);
        if stage == Stage::Finished {
            return self.passed(piece.len());
        }
        if self.is_over(piece.len()) {
            return self.too_long().passed(piece.len());
        }
        if stage == Stage::Reading {
            return self.read_on(unfinished, piece);
        }
        self.counted(piece.len()).passed(piece.len())
    }

    // All `size` octets of a piece are taken, and no NLRI is given.
    fn passed(self, size: usize) -> Fed
        ensures { result ≡ record { pieces = self; taken = size; size = 0 } }
    {
        Fed {
            pieces: self,
            taken: size,
            size: 0,
        }
    }

    // A feed while reading.
    fn read_on(self, unfinished: &mut [u8], piece: &[u8]) -> Fed
        requires { (length unfinished.old ≡ 257) × Within self (length piece.now) }
        ensures { Leaves (read_on_of self unfinished.old piece.now) result unfinished.new }
    {
        let kept = self.kept as usize;
        let wanted = reading::wanted(unfinished, kept, piece);
        let share = reading::share(wanted, kept, piece.len());
        reading::keep(unfinished, kept, piece, share);
        self.settle(unfinished, piece.len(), wanted, share)
    }

    // The answer once the octets taken are kept: whether the NLRI is whole, and what it is if it is.
    fn settle(self, unfinished: &[u8], size: usize, wanted: usize, share: usize) -> Fed
        requires { (length unfinished.now ≡ 257) × (wanted ≤ 257) × (share ≤ size) × Within self size }
        ensures { result ≡ settled_of self unfinished.now size wanted share }
    {
        if self.kept as usize + size < wanted {
            return self.unsettled(share);
        }
        let judgement = reading::check(self.afi, octets::parts::between(unfinished, 0, wanted));
        self.judged(judgement, wanted, share)
    }

    // The piece ends inside the NLRI.
    fn unsettled(self, share: usize) -> Fed
        requires { (self.total + share ≤ 4096) × (self.kept ≤ 256) }
        ensures { result ≡ kept_of self share }
    {
        Fed {
            pieces: Pieces {
                stage: Stage::Reading as u32,
                total: self.total + share as u32,
                kept: self.kept + share as u32,
                ..self
            },
            taken: share,
            size: 0,
        }
    }

    // The NLRI is whole: one that is read is given and counted, one that is skipped is counted apart, and the next one begins after it; one that is
    // refused stops the reading where it begins.
    fn judged(self, judgement: Result<(), Refusal>, wanted: usize, share: usize) -> Fed
        requires { (self.total + share ≤ 4096) × (self.walked.count ≤ 4096) × (self.walked.skipped ≤ 4096) }
        ensures { result ≡ judged_of self (result_number judgement) wanted share }
    {
        let walked = self.walked;
        let offset = self.total + share as u32;
        match judgement {
            Ok(()) => {
                let walked = Walked {
                    number: DONE,
                    count: walked.count + 1,
                    offset,
                    ..walked
                };
                self.past(walked, Stage::Reading, share, wanted)
            }
            Err(refusal) if Mode::from(self.mode).skips(refusal) => {
                let walked = Walked {
                    number: DONE,
                    offset,
                    skipped: walked.skipped + 1,
                    ..walked
                };
                self.past(walked, Stage::Reading, share, 0)
            }
            Err(refusal) => {
                let walked = Walked {
                    number: refusal.number(),
                    ..walked
                };
                self.past(walked, Stage::Stopped, share, 0)
            }
        }
    }

    // Past the end of an NLRI: what is walked then, the stage, and the size of the NLRI if it is given.
    fn past(self, walked: Walked, stage: Stage, share: usize, size: usize) -> Fed
        requires { self.total + share ≤ 4096 }
        ensures { result ≡ past_of self walked (stage_number stage) share size }
    {
        Fed {
            pieces: Pieces {
                walked,
                stage: stage as u32,
                total: self.total + share as u32,
                kept: 0,
                ..self
            },
            taken: share,
            size,
        }
    }
}
