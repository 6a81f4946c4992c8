// Why a call refuses (document 01, "The numbers a call gives back"; W-207, W-209, W-210, W-214).
ghost use Rattle.std.specs.Prelude.{◌≡◌};
ghost use Rattle.octets.specs.Refusals.{refusal_number, result_number};

use crate::number::DONE;

#[derive(Clone, Copy, Debug, PartialEq, Eq)]
pub enum Refusal {
    Short = 1,
    Type = 2,
    Length = 3,
    Width = 4,
    Key = 5,
    Tunnel = 6,
    Ident = 7,
    Long = 8,
    Label = 9,
    Family = 10,
    Table = 11,
    Kind = 12,
    Room = 13,
    Absent = 14,
    Flow = 15,
    Space = 16,
    Deep = 17,
    Range = 18,
    Group = 19,
    Conflict = 20,
}

impl Refusal {
    // The number that a call gives back.
    pub fn number(self) -> u32
        ensures { result ≡ refusal_number self }
    {
        self as u32
    }
}

// The number of a judgement: DONE where nothing is refused.
pub fn number_of(judgement: Result<(), Refusal>) -> u32
    ensures { result ≡ result_number judgement }
{
    match judgement {
        Ok(()) => DONE,
        Err(refusal) => refusal.number(),
    }
}
