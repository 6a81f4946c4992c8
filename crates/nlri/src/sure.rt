// A test before the judge: an NLRI of type 1 to 4, 6 or 7 with enough octets from its start on is accepted by its length octets, and
// where a field ends is not asked. That the test fails says nothing: the judge decides. Type 5 is left to it, for its group.
ghost use Rattle.std.specs.Prelude.{◌≡◌, ℕ, ◌-◌, ◌<◌, ◌≤◌, true, length, slice_index};
ghost use Rattle.octets.specs.Numbers.{DONE};
ghost use Rattle.octets.specs.Outcome.{number_of};
ghost use Rattle.nlri.specs.Family.{is_originator_size};
ghost use Rattle.nlri.specs.Layouts.{layout_at};
ghost use Rattle.nlri.specs.Inner.{SurelyRead};

use crate::address::{AddressKind, RouteDistinguisher};
use crate::body;
use crate::header::HEADER;
use crate::route::RouteType;
use octets::parts;

// As many octets as no NLRI goes past that is accepted here: a Leaf with a key of type 3, whose addresses have at most 255 bits.
const ENOUGH: usize = 108;

// An originator stands from `at` on in a body of `size` octets.
fn is_originator_from(at: usize, size: usize) -> bool
    requires { at < 512 }
    ensures { result ≡ true → (at ≤ size) × (is_originator_size (size - at) ≡ true) }
{
    body::is_originator_size(std::num::wrapping_sub_usize(size, at))
}

// Type 3.
fn is_surely_s_pmsi(kind: AddressKind, s: &[u8]) -> bool
    requires { 90 ≤ length s.now }
    ensures { result ≡ true → SurelyRead kind.bits 3 88 s.now }
{
    let source = s[10] as usize;
    if !body::is_allowed(kind, RouteType::S_PMSI, source) {
        return false;
    }
    let at = 11 + source / 8;
    let group = s[at] as usize;
    if !body::is_allowed(kind, RouteType::S_PMSI, group) {
        return false;
    }
    is_originator_from(at - 1 + group / 8, s[1] as usize)
}

// Types 1, 2 and 3, as which a Leaf's key is tested too.
fn is_surely_keyable(kind: AddressKind, s: &[u8]) -> bool
    requires { 90 ≤ length s.now }
    ensures { result ≡ true → (slice_index s.now 0 ≤ 3) × SurelyRead kind.bits (slice_index s.now 0) 88 s.now }
{
    let route_type = s[0] as usize;
    if route_type == RouteType::S_PMSI {
        return is_surely_s_pmsi(kind, s);
    }
    if route_type == RouteType::INTRA_AS_I_PMSI {
        return is_originator_from(RouteDistinguisher::OCTETS, s[1] as usize);
    }
    if route_type == RouteType::INTER_AS_I_PMSI {
        return s[1] as usize == RouteDistinguisher::WITH_SOURCE_AS;
    }
    false
}

// Type 4: a key, and an originator behind it.
fn is_surely_leaf(kind: AddressKind, s: &[u8]) -> bool
    requires { 108 ≤ length s.now }
    ensures { result ≡ true → SurelyRead kind.bits 4 106 s.now }
{
    if !is_originator_from(HEADER + s[3] as usize, s[1] as usize) {
        return false;
    }
    is_surely_keyable(kind, parts::after(s, HEADER))
}

// Types 6 and 7.
fn is_surely_join(kind: AddressKind, s: &[u8]) -> bool
    requires { 108 ≤ length s.now }
    ensures { result ≡ true → (type : ℕ) → 5 < type → type ≤ 7 → SurelyRead kind.bits type 76 s.now }
{
    if s[14] as usize != kind.bits {
        return false;
    }
    let octets = kind.bits / 8;
    if s[15 + octets] as usize != kind.bits {
        return false;
    }
    s[1] as usize == 14 + 2 * octets
}

// Whether the NLRI at the front of `s` is surely read. With one caller, the walk's judge, it is compiled into it.
pub(crate) fn is_surely_read(kind: AddressKind, s: &[u8]) -> bool
    ensures { result ≡ true → number_of (layout_at kind.bits s.now) ≡ DONE }
{
    if s.len() < ENOUGH {
        return false;
    }
    let route_type = s[0] as usize;
    if route_type == RouteType::LEAF {
        return is_surely_leaf(kind, s);
    }
    if RouteType::SOURCE_TREE_JOIN < route_type {
        return false;
    }
    if RouteType::SOURCE_ACTIVE < route_type {
        return is_surely_join(kind, s);
    }
    is_surely_keyable(kind, s)
}

// The same of types 1 to 4 alone, for the step.
pub(crate) fn is_surely_to_leaf(kind: AddressKind, s: &[u8]) -> bool
    ensures { result ≡ true → number_of (layout_at kind.bits s.now) ≡ DONE }
{
    if s.len() < ENOUGH {
        return false;
    }
    if s[0] as usize == RouteType::LEAF {
        return is_surely_leaf(kind, s);
    }
    is_surely_keyable(kind, s)
}
