// The route types of RFC 7441, read (W-207): bodies with an mLDP FEC element, and the Leaf whose key is such an NLRI. They are judged by one
// call, so that those of RFC 6514 do not pay for the registers and the stack of these.
ghost use Rattle.std.specs.Prelude.{◌≡◌, ℕ, ◌+◌, ◌<◌, true, List, ◌∷◌, length, ◌≢◌};
ghost use Rattle.octets.specs.Refusals.{result_number};
ghost use Rattle.nlri.specs.Bodies.{fec};
ghost use Rattle.nlri.specs.Reading.{key_field};
ghost use Rattle.nlri.specs.Inner.{key_outcome, left_fault, body_fault, after_fec, is_mldp, fec_layout, mldp_layout, FecStands, MldpStands};

use crate::address::{AddressKind, RouteDistinguisher};
use crate::header::{HEADER, Header};
use crate::layout::Layout;
use crate::route::RouteType;
use crate::{body, header, layout};
use fec_elements::{Standing, shape};
use octets::refusal::Refusal;

// What the octets that are left behind a FEC are: in 0x43 the originator, else nothing.
fn check_fec_end(route_type: usize, left: usize) -> Result<(), Refusal>
    ensures { (bits at : ℕ) (s : List ℕ) → length s ≡ at + left → result_number result ≡ left_fault bits route_type (after_fec route_type) at s }
{
    if route_type == RouteType::MLDP_S_PMSI {
        if body::is_originator_size(left) {
            return Ok(());
        }
        return Err(Refusal::Length);
    }
    if left == 0 {
        return Ok(());
    }
    Err(Refusal::Length)
}

// A FEC from `at` on, and what follows it.
fn check_fec(kind: AddressKind, route_type: usize, at: usize, s: &[u8]) -> Result<(), Refusal>
    ensures { result_number result ≡ left_fault kind.bits route_type (fec ∷ after_fec route_type) at s.now }
{
    if s.len() < at {
        return Err(Refusal::Length);
    }
    let rest = octets::parts::after(s, at);
    match fec_elements::check(Standing::InBody(kind.root_family()), rest) {
        Ok(()) => check_fec_end(route_type, rest.len() - shape::fec_size(rest)),
        Err(refusal) => Err(refusal),
    }
}

// A body with a FEC, behind a route distinguisher and, in 0x47, a source AS.
fn check_fec_body(kind: AddressKind, route_type: usize, s: &[u8]) -> Result<(), Refusal>
    requires { (is_mldp route_type ≡ true) × (route_type ≢ 68) }
    ensures { result_number result ≡ body_fault kind.bits route_type s.now }
{
    if route_type == RouteType::MLDP_S_PMSI {
        return check_fec(kind, RouteType::MLDP_S_PMSI, RouteDistinguisher::OCTETS, s);
    }
    check_fec(
        kind,
        RouteType::MLDP_SOURCE_TREE_JOIN,
        RouteDistinguisher::WITH_SOURCE_AS,
        s,
    )
}

// The key of a 0x44 at the front of `s`, a whole NLRI of type 0x43: its header. Any refusal is a fault of the key.
fn read_key(kind: AddressKind, s: &[u8]) -> Result<Header, Refusal>
    ensures { key_outcome result ≡ key_field kind.bits 68 s.now }
{
    let header = header::read_header(s)?;
    if header.route_type != RouteType::MLDP_S_PMSI {
        return Err(Refusal::Key);
    }
    let body = octets::parts::between(s, HEADER, header.length);
    check_fec(
        kind,
        RouteType::MLDP_S_PMSI,
        RouteDistinguisher::OCTETS,
        body,
    )?;
    Ok(header)
}

// A body of 0x44: such a key, then an originator. Any fault inside the key is KEY.
fn check_leaf_body(kind: AddressKind, s: &[u8]) -> Result<(), Refusal>
    ensures { result_number result ≡ body_fault kind.bits 68 s.now }
{
    // a part handed on, so that the slice reaches this function in registers
    let Ok(key) = read_key(kind, &s[0..]) else {
        return Err(Refusal::Key); // whatever the fault
    };
    body::check_originator(HEADER + key.length, s.len())
}

// A body of one of these types.
pub fn check_body(kind: AddressKind, route_type: usize, s: &[u8]) -> Result<(), Refusal>
    requires { is_mldp route_type ≡ true }
    ensures { result_number result ≡ body_fault kind.bits route_type s.now }
{
    // a part handed on, so that the slice reaches this function in registers
    let body = &s[0..];
    if route_type == RouteType::MLDP_LEAF {
        return check_leaf_body(kind, body);
    }
    check_fec_body(kind, route_type, body)
}

// The layout of an NLRI with a FEC, by its Length and the lengths in the FEC.
pub(crate) fn fec_layout(route_type: usize, s: &[u8]) -> Layout
    requires { FecStands route_type s.now }
    ensures { result ≡ fec_layout route_type s.now }
{
    let length = s[1] as usize;
    let left = HEADER + length - layout::fec_start(route_type);
    let fec = shape::fec_size(octets::parts::between(s, layout::fec_start(route_type), left));
    Layout {
        route_type,
        length,
        source: 0,
        group: 0,
        originator: left - fec,
        key: 0,
        fec,
    }
}

// The layout of an NLRI of one of these types.
pub(crate) fn layout(route_type: usize, s: &[u8]) -> Layout
    requires { MldpStands route_type s.now }
    ensures { result ≡ mldp_layout route_type s.now }
{
    if route_type == RouteType::MLDP_LEAF {
        return layout::leaf_layout(route_type, s);
    }
    fec_layout(route_type, s)
}
