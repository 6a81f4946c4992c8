// The fields of an NLRI, put into an output from a position on: each answers where it ends.
ghost use Rattle.std.specs.Prelude.{◌≡◌, true, [], ◌∷◌, ◌+◌, ◌≤◌, length};
ghost use Rattle.octets.specs.Choice.{pick};
ghost use Rattle.octets.specs.Octets.{big_endian};
ghost use Rattle.octets.specs.Outputs.{Put};
ghost use Rattle.nlri.specs.Fields.{encode_address};
ghost use Rattle.nlri.specs.Answers.{address_octets};
ghost use Rattle.nlri_writing.specs.Inner.{front_octets, flow_octets, end_octets, AddressSize};

use nlri::{Address, AddressKind, Nlri};

// Route Type and Length at the front of the output.
pub(crate) fn put_header(route_type: u8, size: u8, output: &mut [u8]) -> usize
    requires { 2 ≤ length output.old }
    ensures { Put 0 (route_type ∷ size ∷ []) output.old result output.new }
{
    let header = [route_type, size];
    octets::parts::place(&header, output, 0)
}

// The octets of an address, from `at` on: copies of a known size are single moves.
pub(crate) fn put_octets(address: Address, output: &mut [u8], at: usize) -> usize
    requires { AddressSize address.size × (at + length (address_octets address) ≤ length output.old) }
    ensures { Put at (address_octets address) output.old result output.new }
{
    let octets = address.octets;
    let size = address.size as usize;
    if size == AddressKind::IPV4_OCTETS {
        return octets::parts::place(&octets[..AddressKind::IPV4_OCTETS], output, at);
    }
    if size == AddressKind::IPV6_OCTETS {
        return octets::parts::place(&octets, output, at);
    }
    at
}

// A source or group with its length octet, from `at` on.
fn put_address(address: Address, output: &mut [u8], at: usize) -> usize
    requires { AddressSize address.size × (at + length (encode_address (address_octets address)) ≤ length output.old) }
    ensures { Put at (encode_address (address_octets address)) output.old result output.new }
{
    let bits = [8 * address.size];
    let next = octets::parts::place(&bits, output, at);
    put_octets(address, output, next)
}

// A source AS from `at` on, where the type has one.
fn put_source_as(numbered: bool, nlri: Nlri, output: &mut [u8], at: usize) -> usize
    requires { at + length (pick numbered (big_endian 4 nlri.source_as) []) ≤ length output.old }
    ensures { Put at (pick numbered (big_endian 4 nlri.source_as) []) output.old result output.new }
{
    if numbered {
        return octets::wide::place_four(nlri.source_as, output, at);
    }
    at
}

// Header, route distinguisher and, where the type has one, a source AS, at the front of the output.
pub(crate) fn put_front(numbered: bool, nlri: Nlri, size: u8, output: &mut [u8]) -> usize
    requires { 2 + length (front_octets numbered nlri) ≤ length output.old }
    ensures { Put 0 (nlri.route_type ∷ size ∷ front_octets numbered nlri) output.old result output.new }
{
    let distinguisher = nlri.distinguisher;
    let octets = distinguisher.octets;
    let at = put_header(nlri.route_type, size, output);
    let next = octets::parts::place(&octets, output, at);
    put_source_as(numbered, nlri, output, next)
}

// Source and group from `at` on.
pub(crate) fn put_flow(nlri: Nlri, output: &mut [u8], at: usize) -> usize
    requires { AddressSize nlri.source.size × (AddressSize nlri.group.size × (at + length (flow_octets nlri) ≤ length output.old)) }
    ensures { Put at (flow_octets nlri) output.old result output.new }
{
    let source = nlri.source;
    let group = nlri.group;
    let next = put_address(source, output, at);
    put_address(group, output, next)
}

// The originator from `at` on, where the type has one.
pub(crate) fn put_originator(originated: bool, nlri: Nlri, output: &mut [u8], at: usize) -> usize
    requires { (originated ≡ true → AddressSize nlri.originator.size) × (at + length (end_octets originated nlri) ≤ length output.old) }
    ensures { Put at (end_octets originated nlri) output.old result output.new }
{
    if originated {
        let originator = nlri.originator;
        return put_octets(originator, output, at);
    }
    at
}
