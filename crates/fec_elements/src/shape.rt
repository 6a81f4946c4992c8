// Where the parts of a FEC stand, and a FEC whose opaque value is not read, judged by two loads.
#![tactic(auto, using(octets::proofs::Tests::flags), unfolding(crate::specs::Reading::opaque_start, crate::specs::Reading::fec_size, crate::specs::Inner::ends_from))]

ghost use Rattle.std.specs.Prelude.{◌≡◌, ◌<◌, ◌≤◌, length};
ghost use Rattle.fec_elements.specs.Reading.{opaque_start, fec_size, short_fec};
ghost use Rattle.fec_elements.specs.Inner.{ends_from, start_after, IsRootFamily};
ghost use Rattle.fec_elements.specs.FecTypes.{IsFecTypeOf};

use octets::refusal::Refusal;

// The types of FECs.
#[derive(Clone, Copy, Debug, PartialEq, Eq)]
pub enum FecType {
    P2mp = 6,
    Mp2mpUp = 7,
    Mp2mpDown = 8,
}

impl TryFrom<u8> for FecType {
    type Error = Refusal;

    ghost try_from_gives = { IsFecTypeOf };

    fn try_from(octet: u8) -> Result<FecType, Refusal> {
        match octet {
            6 => Ok(FecType::P2mp),
            7 => Ok(FecType::Mp2mpUp),
            8 => Ok(FecType::Mp2mpDown),
            _ => Err(Refusal::Ident),
        }
    }
}

// Type 1, address family 2, address length 1.
pub(crate) const FIXED: usize = 4;

// The same with the 2 octets of the opaque length, which stand after the root.
const WITH_LENGTH: usize = 6;

// The family of a root address (RFC 4760).
#[derive(Clone, Copy)]
pub(crate) enum RootFamily {
    Ipv4 = 1,
    Ipv6 = 2,
}

impl RootFamily {
    // Where the opaque value of a FEC with such a root starts.
    pub(crate) fn opaque_start(self) -> usize
        ensures { result ≡ start_after self }
    {
        match self {
            RootFamily::Ipv4 => 10,
            RootFamily::Ipv6 => 22,
        }
    }
}

// No FEC is shorter than one with an IPv4 root and no opaque value.
pub(crate) const LEAST: usize = 10;

// The most octets of a FEC whose opaque length is told by its second octet alone.
const MOST_SHORT: usize = 255;

// The family of the root of the FEC at the front, by its address family and an address length that suits it: with the type one load.
pub(crate) fn root_family(s: &[u8]) -> Option<RootFamily>
    requires { 4 ≤ length s.now }
    ensures { IsRootFamily s.now result }
{
    // the least significant octet first: a family of 2 octets, and the length
    match octets::wide::four_low_first(s, 0) / 256 {
        0x04_0100 => Some(RootFamily::Ipv4),
        0x10_0200 => Some(RootFamily::Ipv6),
        _ => None,
    }
}

// Where the opaque value of the FEC at the front starts.
pub(crate) fn opaque_start(s: &[u8]) -> usize
    requires { 4 ≤ length s.now }
    ensures { result ≡ opaque_start s.now }
{
    s[3] as usize + WITH_LENGTH
}

// The octets of the FEC at the front, by its address length and opaque length, which are there.
pub fn fec_size(s: &[u8]) -> usize
    requires { opaque_start s.now ≤ length s.now }
    ensures { result ≡ fec_size s.now }
{
    let start = opaque_start(s);
    start + octets::wide::two(s, start - 2) as usize
}

// From `start` on as many octets as the opaque length before it says. That is below 256, so that the first of its two octets is 0.
fn ends_from(s: &[u8], start: usize) -> bool
    requires { (2 ≤ start) × (length s.now < 256) }
    ensures { result ≡ ends_from s.now start }
{
    if s.len() < start {
        return false;
    }
    octets::wide::two_low_first(s, start - 2) as usize == (s.len() - start) * 256
}

// The octets are one FEC, whatever its type, and fewer than 256.
pub fn is_short(s: &[u8]) -> bool
    ensures { result ≡ short_fec s.now }
{
    if s.len() < LEAST || MOST_SHORT < s.len() {
        return false;
    }
    match root_family(s) {
        Some(family) => ends_from(s, family.opaque_start()),
        None => false,
    }
}
