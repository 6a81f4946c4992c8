// FECs that hold one another: the FEC reader calls the opaque-value reader and that calls back, with the remaining depth falling from four
// (document 01, "Language forms by place").
#![tactic(auto, using(octets::proofs::Tests::flags), unfolding(crate::specs::Reading::opens, crate::specs::Reading::held_start, crate::specs::Reading::holds_fec, crate::specs::Reading::fec_in, crate::specs::Reading::fec_size, crate::specs::Reading::opaque_start))]

ghost use Rattle.std.specs.Prelude.{◌≡◌, ◌≤◌, length};
ghost use Rattle.octets.specs.Refusals.{result_number};
ghost use Rattle.fec_elements.specs.Reading.{fec_size, fec_in, held_start, fec_fault, opaque_fault};
ghost use Rattle.fec_elements.specs.Inner.{start_in, IsHolder, Holds};

use crate::{Standing, header, shape};
use octets::refusal::Refusal;

// So many FECs may stand in one another, the outermost counted.
pub(crate) const MOST_DEEP: u32 = 4;

// The opaque values that hold a FEC (RFC 6512, section 3).
#[derive(Clone, Copy)]
enum Holder {
    Recursive = 7,
    VpnRecursive = 8,
}

impl Holder {
    // Where the FEC starts: after type 1, length 2 and, in the second, a route distinguisher of 8.
    fn held_start(self) -> usize
        ensures { result ≡ start_in self }
    {
        match self {
            Holder::Recursive => HOLDER_FIXED,
            Holder::VpnRecursive => HOLDER_FIXED + 8,
        }
    }
}

// The type and the length of an opaque value.
const HOLDER_FIXED: usize = 3;

// The opaque value of a FEC whose header has no fault.
fn opaque_of(s: &[u8]) -> &[u8]
    requires { fec_size s.now ≤ length s.now }
    ensures { result.now ≡ (fec_in s.now).opaque_value }
{
    let start = shape::opaque_start(s);
    octets::parts::between(s, start, shape::fec_size(s) - start)
}

// What an opaque value opens as, by its first octet, where it may hold a FEC.
fn opens_as(s: &[u8]) -> Option<Holder>
    ensures { IsHolder s.now result }
{
    if s.is_empty() {
        return None;
    }
    match s[0] {
        7 => Some(Holder::Recursive),
        8 => Some(Holder::VpnRecursive),
        _ => None,
    }
}

// The FEC that an opaque value holds, where all that stands before it is there and the length ends where the opaque value ends.
fn held(s: &[u8], holder: Holder) -> Option<&[u8]>
    requires { start_in holder ≡ held_start s.now }
    ensures { Holds s.now result }
{
    let start = holder.held_start();
    if s.len() < start || octets::wide::two(s, 1) as usize + HOLDER_FIXED != s.len() {
        return None;
    }
    Some(octets::parts::after(s, start))
}

// The first fault of a FEC that may be `depth` deep. Inlined, so that only the outermost is judged by its standing.
#[cycle(checks)]
#[inline(always)]
pub(crate) fn check_fec(s: &[u8], standing: Standing, depth: u32) -> Result<(), Refusal>
    requires { 1 ≤ depth }
    ensures { result_number result ≡ fec_fault depth standing s.now }
{
    header::check(s, standing)?;
    check_opaque(opaque_of(s), depth - 1)
}

// The first fault of an opaque value in which FECs may stand `depth` deep.
#[cycle(checks)]
fn check_opaque(s: &[u8], depth: u32) -> Result<(), Refusal>
    ensures { result_number result ≡ opaque_fault depth s.now }
{
    let Some(holder) = opens_as(s) else {
        return Ok(());
    };
    if depth == 0 {
        return Err(Refusal::Deep);
    }
    match held(s, holder) {
        Some(fec) => check_fec(fec, Standing::Filling, depth),
        None => Err(Refusal::Ident),
    }
}
