// mLDP FEC elements (RFC 6388, section 2.2): one alone, as an attribute has it, and those that hold one another (RFC 6512, section 3;
// request W-207).
#![tactic(auto)]

ghost use Rattle.std.specs.Prelude.{◌≡◌};
ghost use Rattle.octets.specs.Outcome.{number_of};
ghost use Rattle.octets.specs.Refusals.{result_number};
ghost use Rattle.fec_elements.specs.Reading.{read_fec};

use octets::refusal::Refusal;

mod header;
mod nested;
pub mod shape;

// How a FEC stands.
#[derive(Clone, Copy)]
pub enum Standing {
    // outermost, in a body of an NLRI of this family: other fields may follow it
    InBody(u32),
    // outermost, lent to be written into an NLRI of this family: the octets are the FEC
    Lent(u32),
    // in an opaque value or an attribute, to its end; its root is of either family
    Filling,
}

// The first fault from left to right of a FEC at the front of octets and of those that it holds: LENGTH, IDENT or DEEP.
pub fn check(standing: Standing, octets: &[u8]) -> Result<(), Refusal>
    ensures { result_number result ≡ number_of (read_fec standing octets.now) }
{
    nested::check_fec(octets, standing, nested::MOST_DEEP)
}
