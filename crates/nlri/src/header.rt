// The header of an NLRI: Route Type and Length (RFC 6514, section 4).
ghost use Rattle.std.specs.Prelude.{◌≡◌};
ghost use Rattle.nlri.specs.Inner.{header_outcome, header_at};

use octets::refusal::Refusal;

// The octets of a header.
pub const HEADER: usize = 2;

// A route type and a Length with as many octets behind it.
#[derive(Clone, Copy)]
pub struct Header {
    pub route_type: usize,
    pub length: usize,
}

// The header of the NLRI at the front of `s`. SHORT.
#[tactic(auto, using(octets::proofs::Tests::tests), unfolding(crate::specs::Inner::header_at))]
pub fn read_header(s: &[u8]) -> Result<Header, Refusal>
    ensures { header_outcome result ≡ header_at s.now }
{
    if s.len() < HEADER {
        return Err(Refusal::Short);
    }
    let length = s[1] as usize;
    if s.len() - HEADER < length {
        return Err(Refusal::Short);
    }
    Ok(Header {
        route_type: s[0] as usize,
        length,
    })
}
