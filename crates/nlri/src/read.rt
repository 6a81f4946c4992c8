// Reading an NLRI: header, body, and the key of a Leaf are judged with no layout made, and an accepted NLRI is laid out by its octets.
ghost use Rattle.std.specs.Prelude.{◌≡◌, ◌<◌};
ghost use Rattle.octets.specs.Outcome.{number_of};
ghost use Rattle.octets.specs.Refusals.{refusal_number, result_number, outcome_in};
ghost use Rattle.nlri.specs.Reading.{is_s_pmsi, read_of_type, key_field};
ghost use Rattle.nlri.specs.Layouts.{layout_at};
ghost use Rattle.nlri.specs.Inner.{key_outcome, body_fault, body_group, source_active_body_fault, accepted_fault, layout_in, GroupStands, Stands, is_followed, followed_fault, single, s_pmsi_under};

use crate::address::{AddressKind, RouteDistinguisher};
use crate::header::{HEADER, Header};
use crate::layout::Layout;
use crate::route::RouteType;
use crate::{body, family, group, header, layout, mldp, route, sure};
use octets::refusal::Refusal;

// The key at the front of `s`, a whole NLRI of type 1, 2 or 3: its header. Any refusal is a fault of the key. Reading and writing judge a key
// by this.
pub fn read_key(kind: AddressKind, s: &[u8]) -> Result<Header, Refusal>
    ensures { key_outcome result ≡ key_field kind.bits 4 s.now }
{
    let header = header::read_header(s)?;
    if RouteType::S_PMSI < header.route_type {
        return Err(Refusal::Key);
    }
    let body = octets::parts::between(s, HEADER, header.length);
    body::check_keyable_body(kind, header.route_type, body)?;
    Ok(header)
}

// A Leaf's body: a key, then an originator. Any fault inside the key is KEY.
fn check_leaf_body(kind: AddressKind, s: &[u8]) -> Result<(), Refusal>
    ensures { result_number result ≡ body_fault kind.bits 4 s.now }
{
    // a part handed on, so that the slice reaches this function in registers
    let Ok(key) = read_key(kind, &s[0..]) else {
        return Err(Refusal::Key); // whatever the fault
    };
    body::check_originator(HEADER + key.length, s.len())
}

// The group of a body of type 5 that is laid out.
fn group_in(s: &[u8]) -> &[u8]
    requires { GroupStands s.now }
    ensures { result.now ≡ body_group s.now }
{
    let at = 9 + s[8] as usize / 8;
    octets::parts::between(s, at + 1, s[at] as usize / 8)
}

// A body of type 5: an SSM group is GROUP, after every other refusal of the body (W-210).
fn check_source_active_body(kind: AddressKind, s: &[u8]) -> Result<(), Refusal>
    ensures { result_number result ≡ source_active_body_fault kind.bits s.now }
{
    body::check_flow_body(kind, RouteType::SOURCE_ACTIVE, s)?;
    if group::is_ssm(kind, group_in(s)) {
        return Err(Refusal::Group);
    }
    Ok(())
}

// A body of any route type. TYPE.
fn check_body(kind: AddressKind, route_type: usize, s: &[u8]) -> Result<(), Refusal>
    ensures { result_number result ≡ accepted_fault kind.bits route_type s.now }
{
    match RouteType::try_from(route_type)? {
        RouteType::IntraAsIPmsi | RouteType::InterAsIPmsi | RouteType::SPmsi => {
            body::check_keyable_body(kind, route_type, s)
        }
        RouteType::Leaf => check_leaf_body(kind, s),
        RouteType::SourceActive => check_source_active_body(kind, s),
        RouteType::SharedTreeJoin | RouteType::SourceTreeJoin => {
            body::check_flow_body(kind, route_type, s)
        }
        RouteType::MldpSPmsi | RouteType::MldpLeaf | RouteType::MldpSourceTreeJoin => {
            mldp::check_body(kind, route_type, s)
        }
    }
}

// The NLRI at the front of `s`, under the family of a kind of addresses.
pub fn check_front(kind: AddressKind, s: &[u8]) -> Result<(), Refusal>
    ensures { result_number result ≡ number_of (layout_at kind.bits s.now) }
{
    // parts handed on, so that the slice reaches this function in registers
    let header = header::read_header(&s[0..])?;
    check_body(kind, header.route_type, &s[HEADER..HEADER + header.length])
}

// The same, found sooner of most NLRIs. The walk alone calls it, so that it is compiled into the walk.
pub fn check_front_fast(kind: AddressKind, s: &[u8]) -> Result<(), Refusal>
    ensures { result_number result ≡ number_of (layout_at kind.bits s.now) }
{
    if sure::is_surely_read(kind, s) {
        return Ok(());
    }
    check_front(kind, s)
}

// The layout of the NLRI at the front of `s`, which `check_front` has accepted.
pub(crate) fn layout_in(s: &[u8]) -> Layout
    requires { Stands s.now }
    ensures { result ≡ layout_in s.now }
{
    let route_type = s[0] as usize;
    let length = s[1] as usize;
    if route_type == RouteType::INTRA_AS_I_PMSI {
        return layout::plain_layout(
            RouteType::INTRA_AS_I_PMSI,
            length - RouteDistinguisher::OCTETS,
            s,
        );
    }
    if route_type == RouteType::INTER_AS_I_PMSI {
        return layout::plain_layout(RouteType::INTER_AS_I_PMSI, 0, s);
    }
    if route_type == RouteType::LEAF {
        return layout::leaf_layout(RouteType::LEAF, s);
    }
    if RouteType::SOURCE_TREE_JOIN < route_type {
        return mldp::layout(route_type, s);
    }
    layout::flow_layout(route_type, layout::source_start(route_type) - 1, s)
}

// The layout of the NLRI at the front of `s`.
pub fn read_front(kind: AddressKind, s: &[u8]) -> Result<Layout, Refusal>
    ensures { outcome_in result ≡ layout_at kind.bits s.now }
{
    if sure::is_surely_to_leaf(kind, s) {
        return Ok(layout_in(s));
    }
    check_front(kind, s)?;
    Ok(layout_in(s))
}

// Whether octets stand behind the NLRI at the front of `s`; of one that is SHORT either answer will do.
#[tactic(auto, using(octets::proofs::Tests::flags), unfolding(crate::specs::Inner::is_followed))]
fn is_followed(s: &[u8]) -> bool
    ensures { result ≡ is_followed s.now }
{
    HEADER <= s.len() && s.len() - HEADER != s[1] as usize
}

// The refusal of an NLRI that octets stand behind: those are LENGTH, which comes before GROUP.
fn before_group(refusal: Refusal) -> Refusal
    ensures { refusal_number result ≡ followed_fault (refusal_number refusal) }
{
    match refusal {
        Refusal::Group => Refusal::Length,
        _ => refusal,
    }
}

// A single NLRI: octets after it are LENGTH, before GROUP.
pub(crate) fn check_single(kind: AddressKind, s: &[u8]) -> Result<(), Refusal>
    ensures { result_number result ≡ number_of (single kind.bits s.now) }
{
    let front = check_front(kind, s);
    if !is_followed(s) {
        return front;
    }
    match front {
        Ok(()) => Err(Refusal::Length),
        Err(refusal) => Err(before_group(refusal)),
    }
}

// A single NLRI of one route type: any other type is KIND. No layout is made.
pub fn check_of_type(afi: u16, route_type: usize, s: &[u8]) -> Result<(), Refusal>
    ensures { result_number result ≡ number_of (read_of_type route_type afi s.now) }
{
    let kind = family::family_of(afi)?;
    check_single(kind, s)?;
    if s[0] as usize != route_type {
        return Err(Refusal::Kind);
    }
    Ok(())
}

// A single NLRI of type 3 under a family. Its octets are judged where they stand, with no layout.
fn is_s_pmsi_under(kind: AddressKind, s: &[u8]) -> bool
    ensures { result ≡ s_pmsi_under kind.bits s.now }
{
    if s.len() < HEADER + RouteDistinguisher::OCTETS {
        return false;
    }
    if s[0] as usize != RouteType::S_PMSI {
        return false;
    }
    if s[1] as usize != s.len() - HEADER {
        return false;
    }
    body::check_flow(
        kind,
        RouteType::S_PMSI,
        HEADER + RouteDistinguisher::OCTETS,
        s,
    )
    .is_ok()
}

// Whether octets are a single NLRI of type 3.
pub fn is_s_pmsi(afi: u16, s: &[u8]) -> bool
    ensures { result ≡ is_s_pmsi afi s.now }
{
    match family::family_of(afi) {
        Ok(kind) => is_s_pmsi_under(kind, s),
        Err(_) => false,
    }
}
