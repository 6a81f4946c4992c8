// The bodies of NLRIs, judged field by field from left to right (document 01, "NLRI on the wire"): the first fault refuses. Fields are judged by
// where they end in the octets, so that a length octet that is there says that all before it is.
ghost use Rattle.std.specs.Prelude.{◌≡◌, ℕ, ◌<◌, ◌≤◌, List, [], ◌∷◌, length};
ghost use Rattle.octets.specs.Refusals.{result_number};
ghost use Rattle.nlri.specs.Family.{allowed, is_originator_size};
ghost use Rattle.nlri.specs.Bodies.{source, group, originator};
ghost use Rattle.nlri.specs.Inner.{left_fault, body_fault, after_flow};

use crate::address::{AddressKind, RouteDistinguisher};
use crate::header::HEADER;
use crate::layout;
use crate::route::RouteType;
use octets::refusal::Refusal;

// A source or group length is the family's; in type 3 only it may be 0, the wildcard.
#[tactic(auto, using(octets::proofs::Tests::flags), unfolding(crate::specs::Family::allowed))]
pub fn is_allowed(kind: AddressKind, route_type: usize, bits: usize) -> bool
    ensures { result ≡ allowed kind.bits route_type bits }
{
    if bits == kind.bits {
        return true;
    }
    if route_type == RouteType::S_PMSI {
        return bits == AddressKind::WILDCARD;
    }
    false
}

// An originator has 4 or 16 octets, independent of the family.
#[tactic(auto, using(octets::proofs::Tests::flags), unfolding(crate::specs::Family::is_originator_size))]
pub fn is_originator_size(size: usize) -> bool
    ensures { result ≡ is_originator_size size }
{
    size == AddressKind::IPV4_OCTETS || size == AddressKind::IPV6_OCTETS
}

// An originator stands from `at` to the end.
pub(crate) fn check_originator(at: usize, size: usize) -> Result<(), Refusal>
    requires { at < 512 }
    ensures { (bits type : ℕ) (s : List ℕ) → length s ≡ size → result_number result ≡ left_fault bits type (originator ∷ []) at s }
{
    if size == at + AddressKind::IPV4_OCTETS {
        return Ok(());
    }
    if size == at + AddressKind::IPV6_OCTETS {
        return Ok(());
    }
    Err(Refusal::Length)
}

// Nothing stands from `at` on.
fn check_end(at: usize, size: usize) -> Result<(), Refusal>
    ensures { (bits type : ℕ) (s : List ℕ) → length s ≡ size → result_number result ≡ left_fault bits type [] at s }
{
    if size == at {
        return Ok(());
    }
    Err(Refusal::Length)
}

// What follows source and group: in type 3 the originator, else nothing.
fn check_flow_end(route_type: usize, at: usize, size: usize) -> Result<(), Refusal>
    requires { at < 512 }
    ensures { (bits : ℕ) (s : List ℕ) → length s ≡ size → result_number result ≡ left_fault bits route_type (after_flow route_type) at s }
{
    if route_type == RouteType::S_PMSI {
        return check_originator(at, size);
    }
    check_end(at, size)
}

// A group, whose length octet is at `at`, and what follows it.
fn check_group_field(
    kind: AddressKind,
    route_type: usize,
    at: usize,
    s: &[u8],
) -> Result<(), Refusal>
    requires { at < 256 }
    ensures { result_number result ≡ left_fault kind.bits route_type (group ∷ after_flow route_type) at s.now }
{
    if s.len() <= at {
        return Err(Refusal::Length);
    }
    let bits = s[at] as usize;
    if !is_allowed(kind, route_type, bits) {
        return Err(Refusal::Width);
    }
    check_flow_end(route_type, at + 1 + bits / 8, s.len())
}

// A source, whose length octet is at `at`, and what follows it.
pub(crate) fn check_flow(
    kind: AddressKind,
    route_type: usize,
    at: usize,
    s: &[u8],
) -> Result<(), Refusal>
    requires { at < 128 }
    ensures { result_number result ≡ left_fault kind.bits route_type (source ∷ group ∷ after_flow route_type) at s.now }
{
    if s.len() <= at {
        return Err(Refusal::Length);
    }
    let bits = s[at] as usize;
    if !is_allowed(kind, route_type, bits) {
        return Err(Refusal::Width);
    }
    check_group_field(kind, route_type, at + 1 + bits / 8, s)
}

// A body of a type that a key may have: 1, 2 or 3.
pub(crate) fn check_keyable_body(
    kind: AddressKind,
    route_type: usize,
    s: &[u8],
) -> Result<(), Refusal>
    requires { route_type ≤ 3 }
    ensures { result_number result ≡ body_fault kind.bits route_type s.now }
{
    if route_type == RouteType::S_PMSI {
        return check_flow(kind, RouteType::S_PMSI, RouteDistinguisher::OCTETS, s);
    }
    if route_type == RouteType::INTRA_AS_I_PMSI {
        return check_originator(RouteDistinguisher::OCTETS, s.len());
    }
    if route_type == RouteType::INTER_AS_I_PMSI {
        return check_end(RouteDistinguisher::WITH_SOURCE_AS, s.len());
    }
    Err(Refusal::Type)
}

// A body of type 5, 6 or 7: a source and a group, and nothing behind them. All are judged as type 5 is, a constant, so that the
// judge is compiled for it.
pub(crate) fn check_flow_body(kind: AddressKind, route_type: usize, s: &[u8]) -> Result<(), Refusal>
    requires { (4 < route_type) × (route_type ≤ 7) }
    ensures { result_number result ≡ body_fault kind.bits route_type s.now }
{
    check_flow(
        kind,
        RouteType::SOURCE_ACTIVE,
        layout::source_start(route_type) - (HEADER + 1),
        s,
    )
}
