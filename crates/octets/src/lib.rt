// Octets in slices, and the numbers that calls give back: what the codecs share. Neither installed nor exported to C, so
// its helpers may have a `requires`.
#![tactic(auto)]

ghost use Rattle.std.specs.Prelude.{◌≡◌};
ghost use Rattle.octets.specs.Outcome.{refused};
ghost use Rattle.octets.specs.Outputs.{written_of};
ghost use Rattle.octets.specs.Refusals.{written_by};

pub mod blocks;
pub mod number;
pub mod order;
pub mod parts;
pub mod refusal;
pub mod wide;

use number::DONE;
use refusal::Refusal;

// A part of a slice: `size` octets from octet `start`.
#[repr(C)]
#[derive(Clone, Copy)]
pub struct Span {
    pub start: usize,
    pub size: usize,
}

// What a writer answers: DONE and the octets written, or the refusal's number and 0.
#[repr(C)]
#[derive(Clone, Copy)]
pub struct Written {
    pub number: u32,
    pub size: usize,
}

impl Written {
    // The answer of a refusal: its number, and no octets written.
    #[tactic(auto, unfolding(crate::specs::Outputs::written_of, crate::specs::Outcome::number_of, crate::specs::Outcome::on_outcome))]
    pub fn refused(number: u32) -> Written
        ensures { result ≡ written_of (refused number) }
    {
        Written { number, size: 0 }
    }
}

impl From<Result<usize, Refusal>> for Written {
    ghost from_gives = { λ done written. written ≡ written_by done };

    #[tactic(auto, unfolding(crate::specs::Outputs::written_of, crate::specs::Outcome::number_of, crate::specs::Outcome::on_outcome))]
    fn from(done: Result<usize, Refusal>) -> Written {
        match done {
            Ok(size) => Written { number: DONE, size },
            Err(refusal) => Written::refused(refusal.number()),
        }
    }
}
