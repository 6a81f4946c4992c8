// Planned routes written as places, each NLRI from its fields where they lie.
ghost use Rattle.std.specs.Prelude.{◌≡◌, ◌+◌, ◌≤◌, length};
ghost use Rattle.octets.specs.Outputs.{Put};
ghost use Rattle.nlri.specs.Fields.{encode_address};
ghost use Rattle.plan.specs.Inner.{source_to_originator, planned_nlri, place_for, RouteSized};

use crate::vrf::Vrf;
use nlri::RouteType;
use octets::parts;
use places::geometry::PLACE;

// A source or group with its length octet, from `at` on.
fn put_address(address: &[u8], output: &mut [u8], at: usize) -> usize
    requires { (length address.now ≤ 16) × (at + (1 + length address.now) ≤ length output.old) }
    ensures { Put at (encode_address address.now) output.old result output.new }
{
    let bits = [8 * address.len() as u8];
    let next = parts::place(&bits, output, at);
    parts::place(address, output, next)
}

// Source, group and originator, one after the other, from `at` on.
fn put_flow(source: &[u8], group: &[u8], originator: &[u8], output: &mut [u8], at: usize) -> usize
    requires { (length source.now ≤ 16) × (length group.now ≤ 16) × (at + length (source_to_originator source.now group.now originator.now) ≤ length output.old) }
    ensures { Put at (source_to_originator source.now group.now originator.now) output.old result output.new }
{
    let second = put_address(source, output, at);
    let third = put_address(group, output, second);
    parts::place(originator, output, third)
}

// The octets behind an NLRI's header: RD, source and group each with its length octet, originator.
fn body_size(source: &[u8], group: &[u8], originator: &[u8]) -> usize
    requires { (length source.now ≤ 16) × (length group.now ≤ 16) × (length originator.now ≤ 16) }
    ensures { result ≡ 10 + length source.now + length group.now + length originator.now }
{
    10 + source.len() + group.len() + originator.len()
}

// The S-PMSI NLRI of a source and a group, each of which may be a wildcard, from `at` on.
fn put_nlri(vrf: &Vrf<'_>, source: &[u8], group: &[u8], output: &mut [u8], at: usize) -> usize
    requires { (length source.now ≤ 16) × (length group.now ≤ 16) × (length vrf.now.originator.now ≤ 16) × (length vrf.now.distinguisher.now ≡ 8) × (at + length (planned_nlri vrf.now.distinguisher.now source.now group.now vrf.now.originator.now) ≤ length output.old) }
    ensures { Put at (planned_nlri vrf.now.distinguisher.now source.now group.now vrf.now.originator.now) output.old result output.new }
{
    let header = [
        RouteType::SPmsi as u8,
        body_size(source, group, vrf.originator) as u8,
    ];
    let second = parts::place(&header, output, at);
    let third = parts::place(vrf.distinguisher, output, second);
    put_flow(source, group, vrf.originator, output, third)
}

// The place of a route for a source and a group: sizes, NLRI, attribute, zeros, and no mark.
fn write_place(vrf: &Vrf<'_>, source: &[u8], group: &[u8], wanted: &[u8], place: &mut [u8])
    requires { (length place.old ≡ 128) × RouteSized vrf.now.distinguisher.now vrf.now.originator.now source.now group.now wanted.now }
    ensures { place.new ≡ place_for vrf.now.distinguisher.now vrf.now.originator.now source.now group.now wanted.now }
{
    parts::clear(place);
    let sizes = [
        2 + body_size(source, group, vrf.originator) as u8,
        wanted.len() as u8,
    ];
    let start = parts::place(&sizes, place, 0);
    let end = put_nlri(vrf, source, group, place, start);
    parts::place(wanted, place, end);
}

// The same, in the place of an output that starts at `at`. Where the next one starts.
pub(crate) fn put_place(
    vrf: &Vrf<'_>,
    source: &[u8],
    group: &[u8],
    wanted: &[u8],
    output: &mut [u8],
    at: usize,
) -> usize
    requires { (at + 128 ≤ length output.old) × RouteSized vrf.now.distinguisher.now vrf.now.originator.now source.now group.now wanted.now }
    ensures { Put at (place_for vrf.now.distinguisher.now vrf.now.originator.now source.now group.now wanted.now) output.old result output.new }
{
    let next = at + PLACE;
    write_place(vrf, source, group, wanted, &mut output[at..next]);
    next
}
