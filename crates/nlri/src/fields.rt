// The fields of an NLRI, copied out of it by its layout.
ghost use Rattle.std.specs.Prelude.{◌≡◌, ◌+◌, ◌<◌, ◌≤◌, true, false, length};
ghost use Rattle.octets.specs.Octets.{part};
ghost use Rattle.octets.specs.Outcome.{refused};
ghost use Rattle.octets.specs.Refusals.{refusal_number};
ghost use Rattle.nlri.specs.Reading.{read_nlri};
ghost use Rattle.nlri.specs.Answers.{address_struct, distinguisher_struct, nlri_struct, nlri_answer};
ghost use Rattle.nlri.specs.Inner.{with_key, with_fec, with_source_as, distinguisher_at, source_as_at, leaf_layout, fec_layout, mldp_layout, layout_in, KeyStands, FecStands, MldpStands, Stands, fields_at, key_at, fec_in_layout, answer_at, LayoutWithin};

use crate::address::{Address, AddressKind, RouteDistinguisher};
use crate::header::HEADER;
use crate::layout::Layout;
use crate::{family, layout, read, route};
use octets::Span;
use octets::number::DONE;
use octets::refusal::Refusal;

// A field that the route type lacks is zeros in an answer, and is not looked at in an argument.
#[repr(C)]
#[derive(Clone, Copy)]
pub struct Nlri {
    pub distinguisher: RouteDistinguisher,
    pub source: Address,
    pub group: Address,
    pub originator: Address,
    pub source_as: u32,
    pub route_type: u8,
}

// What reading a single NLRI answers: the number, the fields, and where a Leaf's key and an mLDP customer's FEC stand.
#[repr(C)]
#[derive(Clone, Copy)]
pub struct NlriReading {
    pub number: u32,
    pub nlri: Nlri,
    pub key: Span,
    pub fec: Span,
}

// The address of `size` octets that begins at `start`; no octets are the wildcard.
fn address_at(s: &[u8], start: usize, size: usize) -> Address
    requires { (size ≤ 16) × ((0 < size → start + size ≤ length s.now)) }
    ensures { result ≡ address_struct (part s.now start size) }
{
    if size == 0 {
        return Address::wildcard();
    }
    if size == AddressKind::IPV4_OCTETS {
        return AddressKind::ipv4().address(octets::parts::between(s, start, size));
    }
    AddressKind::ipv6().address(octets::parts::between(s, start, size))
}

// The route distinguisher, which stands behind the header; zeros where the type has a key instead.
fn distinguisher_in(route_type: usize, s: &[u8]) -> RouteDistinguisher
    requires { with_key route_type ≡ false → 10 ≤ length s.now }
    ensures { result ≡ distinguisher_struct (distinguisher_at route_type s.now) }
{
    let mut octets = [0u8; 8];
    if route::has_key(route_type) {
        return RouteDistinguisher { octets };
    }
    octets.copy_from_slice(octets::parts::between(s, HEADER, RouteDistinguisher::OCTETS));
    RouteDistinguisher { octets }
}

// The source AS, or 0 where the type has none.
fn source_as_in(route_type: usize, s: &[u8]) -> u32
    requires { with_source_as route_type ≡ true → 14 ≤ length s.now }
    ensures { result ≡ source_as_at route_type s.now }
{
    if route::has_source_as(route_type) {
        return octets::wide::four(s, HEADER + RouteDistinguisher::OCTETS);
    }
    0
}

// The fields of a single NLRI, by its layout.
fn nlri_in(layout: Layout, s: &[u8]) -> Nlri
    requires { LayoutWithin layout s.now }
    ensures { result ≡ nlri_struct (fields_at layout s.now) }
{
    let route_type = layout.route_type;
    let start = layout::source_start(route_type);
    let source = address_at(s, start, layout.source);
    let group = address_at(s, start + layout.source + 1, layout.group);
    let originator = address_at(s, s.len() - layout.originator, layout.originator);
    let distinguisher = distinguisher_in(route_type, s);
    Nlri {
        distinguisher,
        source,
        group,
        originator,
        source_as: source_as_in(route_type, s),
        route_type: route_type as u8,
    }
}

// The answer of a refusal: its number and empty fields.
fn refused(refusal: Refusal) -> NlriReading
    ensures { result ≡ nlri_answer (refused (refusal_number refusal)) }
{
    NlriReading {
        number: refusal.number(),
        nlri: Nlri {
            distinguisher: RouteDistinguisher { octets: [0; 8] },
            source: Address::wildcard(),
            group: Address::wildcard(),
            originator: Address::wildcard(),
            source_as: 0,
            route_type: 0,
        },
        key: Span { start: 0, size: 0 },
        fec: Span { start: 0, size: 0 },
    }
}

// A key stands straight after the header.
fn key_in(layout: Layout) -> Span
    ensures { result ≡ key_at layout }
{
    if route::has_key(layout.route_type) {
        return Span {
            start: HEADER,
            size: layout.key,
        };
    }
    Span {
        start: 0,
        size: layout.key,
    }
}

// A FEC stands behind the route distinguisher or the source AS.
fn fec_in(layout: Layout) -> Span
    ensures { result ≡ fec_in_layout layout }
{
    if route::has_fec(layout.route_type) {
        return Span {
            start: layout::fec_start(layout.route_type),
            size: layout.fec,
        };
    }
    Span {
        start: 0,
        size: layout.fec,
    }
}

// What reading an NLRI answers, by its layout.
fn reading_by(layout: Layout, s: &[u8]) -> NlriReading
    requires { LayoutWithin layout s.now }
    ensures { result ≡ answer_at layout s.now }
{
    let nlri = nlri_in(layout, s);
    NlriReading {
        number: DONE,
        nlri,
        key: key_in(layout),
        fec: fec_in(layout),
    }
}

// Reads a single NLRI: FAMILY, SHORT, TYPE, then the body left to right, then LENGTH for octets after it.
pub fn read_nlri(afi: u16, s: &[u8]) -> NlriReading
    ensures { result ≡ nlri_answer (read_nlri afi s.now) }
{
    let Ok(kind) = family::family_of(afi) else {
        return refused(Refusal::Family);
    };
    match read::check_single(kind, s) {
        Ok(()) => reading_by(read::layout_in(s), s),
        Err(refusal) => refused(refusal),
    }
}
