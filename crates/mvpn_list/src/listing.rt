// The whole listing of a run (document 01, "Marked examples", the listing; document 02, W-206).
ghost use Rattle.std.specs.Prelude.{◌≡◌, Some};
ghost use Rattle.octets.specs.Refusals.{result_number};
ghost use Rattle.runs.specs.Modes.{mode_number};
ghost use Rattle.mvpn_list.specs.Listing.{last_line, listing_of};

use octets::refusal;
use octets::refusal::Refusal;
use runs::{Cursor, Mode, Turn};
use std::fmt;

// The family whose runs are listed.
const AFI: u16 = 1;

// The listing of a run in a mode: a line for each NLRI that is read, and the last line.
#[derive(Clone, Copy)]
pub(crate) struct Listing<'a> {
    pub mode: Mode,
    pub run: &'a [u8],
}

impl fmt::Display for Listing<'_> {
    ghost output = { λ listing. Some (listing_of (mode_number listing.mode) listing.run.now) };

    fn fmt<W: fmt::Write>(&self, f: &mut fmt::Formatter<W>) -> fmt::Result {
        writeln!(f, "MVT list 1")?;
        let mut cursor = Cursor { at: 0 };
        let mut skipped: u32 = 0;
        loop {
            let offset = cursor.at;
            let turn = match cursor.turn(AFI, self.mode, self.run) {
                Ok(Some(turn)) => turn,
                Ok(None) => return self.stop(Ok(()), offset, skipped).fmt(f),
                Err(refusal) => return self.stop(Err(refusal), offset, skipped).fmt(f),
            };
            let step = match turn {
                Turn::Read(step) => step,
                Turn::Skipped(next) => {
                    skipped += 1;
                    cursor = next;
                    continue;
                }
            };
            let route_type = step.layout.route_type;
            let length = step.layout.length;
            writeln!(f, "{offset} {route_type} {length}")?;
            cursor = step.next;
        }
    }
}

impl Listing<'_> {
    // The stop of this listing's walk.
    fn stop(&self, judgement: Result<(), Refusal>, offset: usize, skipped: u32) -> Stop
        ensures { result ≡ record { mode = self.now.mode; judgement = judgement; offset = offset; skipped = skipped } }
    {
        Stop {
            mode: self.mode,
            judgement,
            offset,
            skipped,
        }
    }
}

// Where and why a walk stopped, and how many NLRIs a walk that skips has skipped.
#[derive(Clone, Copy)]
struct Stop {
    mode: Mode,
    judgement: Result<(), Refusal>,
    offset: usize,
    skipped: u32,
}

impl fmt::Display for Stop {
    ghost output = { λ stop. Some (last_line (mode_number stop.mode) (result_number stop.judgement) stop.offset stop.skipped) };

    fn fmt<W: fmt::Write>(&self, f: &mut fmt::Formatter<W>) -> fmt::Result {
        let word = match self.judgement {
            Ok(()) => "end",
            Err(_) => "stop",
        };
        let offset = self.offset;
        let number = refusal::number_of(self.judgement);
        let skipped = self.skipped;
        match self.mode {
            Mode::Skip => writeln!(f, "{word} {offset} {number} {skipped}"),
            Mode::Old => writeln!(f, "{word} {offset} {number}"),
        }
    }
}
