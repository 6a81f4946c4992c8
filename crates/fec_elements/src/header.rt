// A FEC up to its opaque value, judged field by field from left to right.
#![tactic(auto, using(octets::proofs::Tests::flags), unfolding(crate::specs::Reading::runs_out, crate::specs::Reading::must_fill, crate::specs::Reading::takes_family, crate::specs::Reading::family_suits, crate::specs::Reading::length_fault, crate::specs::Reading::root_fault, crate::specs::Reading::family_fault, crate::specs::Reading::header_fault))]

ghost use Rattle.std.specs.Prelude.{◌≡◌, true, ◌≤◌, ◌<◌, length};
ghost use Rattle.fec_elements.specs.Reading.{runs_out, must_fill, takes_family, is_fec_type, family_suits, length_fault, root_fault, family_fault, header_fault};
ghost use Rattle.octets.specs.Numbers.{DONE};
ghost use Rattle.octets.specs.Refusals.{refusal_number, result_number};
ghost use Rattle.fec_elements.specs.Inner.{EndsWell};

use crate::shape::FecType;
use crate::{Standing, shape};
use octets::refusal::Refusal;

// Why a FEC inside which the octets end is refused.
fn runs_out(standing: Standing) -> Refusal
    ensures { refusal_number result ≡ runs_out standing }
{
    match standing {
        Standing::InBody(_) => Refusal::Length,
        Standing::Lent(_) => Refusal::Ident,
        Standing::Filling => Refusal::Ident,
    }
}

// Nothing may follow the FEC.
fn must_fill(standing: Standing) -> bool
    ensures { result ≡ must_fill standing }
{
    match standing {
        Standing::InBody(_) => false,
        Standing::Lent(_) => true,
        Standing::Filling => true,
    }
}

// In an NLRI the outermost root is of the AFI's family (RFC 7441, section 3).
fn takes_family(standing: Standing, address_family: u32) -> bool
    ensures { result ≡ takes_family standing address_family }
{
    match standing {
        Standing::InBody(afi) => address_family == afi,
        Standing::Lent(afi) => address_family == afi,
        Standing::Filling => true,
    }
}

// A type of mLDP FECs.
fn is_fec_type(octet: u8) -> bool
    ensures { result ≡ is_fec_type octet }
{
    FecType::try_from(octet).is_ok()
}

// An address length that suits the address family (RFC 4760).
fn family_suits(address_family: u32, size: u8) -> bool
    ensures { result ≡ family_suits address_family size }
{
    if address_family == 1 {
        return size == 4;
    }
    if address_family == 2 {
        return size == 16;
    }
    false
}

// Root, opaque length, and as many octets as that says.
fn check_length(s: &[u8], standing: Standing) -> Result<(), Refusal>
    requires { 4 ≤ length s.now }
    ensures { result_number result ≡ length_fault standing s.now }
{
    if s.len() < shape::opaque_start(s) {
        return Err(runs_out(standing));
    }
    let end = shape::fec_size(s);
    if s.len() < end {
        return Err(runs_out(standing));
    }
    if end < s.len() && must_fill(standing) {
        return Err(Refusal::Ident);
    }
    Ok(())
}

// Address length, and what follows it.
fn check_root(s: &[u8], standing: Standing) -> Result<(), Refusal>
    ensures { result_number result ≡ root_fault standing s.now }
{
    if s.len() < shape::FIXED {
        return Err(runs_out(standing));
    }
    if family_suits(octets::wide::two(s, 1), s[3]) {
        return check_length(s, standing);
    }
    Err(Refusal::Ident)
}

// Address family, and what follows it.
fn check_family(s: &[u8], standing: Standing) -> Result<(), Refusal>
    ensures { result_number result ≡ family_fault standing s.now }
{
    if s.len() < 3 {
        return Err(runs_out(standing));
    }
    if takes_family(standing, octets::wide::two(s, 1)) {
        return check_root(s, standing);
    }
    Err(Refusal::Ident)
}

// Type, and what follows it; after the quick test few octets come here that are good.
#[cold]
fn check_type(s: &[u8], standing: Standing) -> Result<(), Refusal>
    ensures { result_number result ≡ header_fault standing s.now }
{
    if s.len() < 1 {
        return Err(runs_out(standing));
    }
    if is_fec_type(s[0]) {
        return check_family(s, standing);
    }
    Err(Refusal::Ident)
}

// A FEC whose opaque value starts at `start` ends with the octets, by the opaque length before that, or ends sooner where something may follow.
fn ends_well(s: &[u8], start: usize, standing: Standing) -> bool
    requires { (2 ≤ start) × (start < 256) }
    ensures { result ≡ true → EndsWell standing start s.now }
{
    if s.len() < start {
        return false;
    }
    let end = start + octets::wide::two(s, start - 2) as usize;
    if end == s.len() {
        return true;
    }
    if s.len() < end {
        return false;
    }
    !must_fill(standing)
}

// A test before the judge: address family and address length are one load. That it fails says nothing.
fn is_surely_good(s: &[u8], standing: Standing) -> bool
    ensures { result ≡ true → header_fault standing s.now ≡ DONE }
{
    if s.len() < shape::LEAST || !is_fec_type(s[0]) {
        return false;
    }
    match shape::root_family(s) {
        Some(family) => {
            takes_family(standing, family as u32) && ends_well(s, family.opaque_start(), standing)
        }
        None => false,
    }
}

// The first fault of a FEC up to its opaque value.
pub(crate) fn check(s: &[u8], standing: Standing) -> Result<(), Refusal>
    ensures { result_number result ≡ header_fault standing s.now }
{
    if is_surely_good(s, standing) {
        return Ok(());
    }
    check_type(s, standing)
}
