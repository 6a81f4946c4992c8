// Writing an NLRI: FAMILY, TYPE, WIDTH, IDENT and DEEP, LONG, KEY, GROUP, SPACE. The type is told first: each family of types is judged, sized and
// put by functions of its own, and asks only for what tells its types apart. Fields that the route type lacks are not looked at.
ghost use Rattle.std.specs.Prelude.{◌≡◌, true, Ok, ◌⊎◌, [], ◌+◌, ◌≤◌, length, ltb};
ghost use Rattle.octets.specs.Choice.{both};
ghost use Rattle.octets.specs.Outcome.{given};
ghost use Rattle.octets.specs.Outputs.{Wrote};
ghost use Rattle.octets.specs.Refusals.{written_by};
ghost use Rattle.nlri.specs.Fields.{is_discarded};
ghost use Rattle.nlri.specs.Writing.{write_nlri};
ghost use Rattle.nlri.specs.Answers.{struct_fields};
ghost use Rattle.nlri.specs.Inner.{with_key};
ghost use Rattle.nlri_writing.specs.Inner.{write_under, framed, front_size, flow_octets, end_size, body_with, leaf_body, originator_fits, flow_body, addresses_fit, i_pmsi_written, flow_written, fec_written, leaf_written, AddressSize, Putting};

use crate::key::is_key;
use crate::put;
use fec_elements::Standing;
use nlri::{AddressKind, HEADER, Nlri, RouteDistinguisher, RouteType, route};
use octets::Written;
use octets::refusal::Refusal;

// The most octets of a body: its Length is one octet.
const MOST: usize = 255;

// An originator has 4 or 16 octets, where the type has one.
#[tactic(auto, using(octets::proofs::Tests::flags), unfolding(crate::specs::Inner::originator_fits))]
fn originator_fits(originated: bool, size: usize) -> bool
    ensures { result ≡ originator_fits originated size }
{
    if originated {
        return nlri::is_originator_size(size);
    }
    true
}

// The octets of the route distinguisher, with a source AS where the type has one.
#[tactic(auto, using(octets::proofs::Tests::tests), unfolding(crate::specs::Inner::front_size))]
fn front_size(numbered: bool) -> usize
    ensures { result ≡ front_size numbered }
{
    if numbered {
        return RouteDistinguisher::WITH_SOURCE_AS;
    }
    RouteDistinguisher::OCTETS
}

// The octets of the originator, where the type has one.
#[tactic(auto, using(octets::proofs::Tests::tests), unfolding(crate::specs::Inner::end_size))]
fn end_size(originated: bool, size: usize) -> usize
    ensures { result ≡ end_size originated size }
{
    if originated {
        return size;
    }
    0
}

// Types 1 and 2: behind the route distinguisher an originator or a source AS. WIDTH, SPACE.
fn write_i_pmsi(nlri: Nlri, output: &mut [u8]) -> Result<usize, Refusal>
    ensures { Wrote (i_pmsi_written nlri.route_type nlri (length output.old)) output.old (written_by result) output.new }
{
    let numbered = nlri.route_type as usize == RouteType::INTER_AS_I_PMSI;
    let originated = nlri.route_type as usize == RouteType::INTRA_AS_I_PMSI;
    let originator = nlri.originator;
    if !originator_fits(originated, originator.size as usize) {
        return Err(Refusal::Width);
    }
    let size = front_size(numbered) + end_size(originated, originator.size as usize);
    if output.len() < HEADER + size {
        return Err(Refusal::Space);
    }
    Ok(put_between(numbered, originated, nlri, &[], size, output))
}

// Whether an NLRI whose addresses fit is discarded: a Source Active route whose group is SSM (W-210).
fn is_discarded(kind: AddressKind, nlri: Nlri) -> bool
    requires { nlri.group.size ≤ 16 }
    ensures { result ≡ is_discarded kind.bits (struct_fields nlri [] []) }
{
    if nlri.route_type as usize != RouteType::SOURCE_ACTIVE {
        return false;
    }
    let address = nlri.group;
    let octets = address.octets;
    let size = address.size as usize;
    nlri::is_ssm(kind, &octets[..size])
}

// Puts an NLRI with a source and a group between the ends of its body, of `size` octets.
fn put_flow(numbered: bool, originated: bool, nlri: Nlri, size: usize, output: &mut [u8]) -> usize
    requires address_size { (originated ≡ true → AddressSize nlri.originator.size) × Putting (body_with numbered originated nlri (flow_octets nlri)) size output.old }
    requires address_size_2 { AddressSize nlri.source.size × AddressSize nlri.group.size }
    ensures { Wrote (given (framed nlri.route_type (body_with numbered originated nlri (flow_octets nlri)))) output.old (written_by (Ok result)) output.new }
{
    let at = put::put_front(numbered, nlri, size as u8, output);
    let next = put::put_flow(nlri, output, at);
    put::put_originator(originated, nlri, output, next);
    HEADER + size
}

// The octets of a body with a source and a group.
fn flow_size(nlri: Nlri) -> usize
    ensures { result ≡ length (flow_body nlri.route_type nlri) }
{
    let route_type = nlri.route_type as usize;
    let source = nlri.source;
    let group = nlri.group;
    let originator = nlri.originator;
    let front = front_size(RouteType::SOURCE_ACTIVE < route_type);
    let flow = 2 + source.size as usize + group.size as usize;
    front + flow + end_size(route_type == RouteType::S_PMSI, originator.size as usize)
}

// Every address of such a body fits.
#[tactic(auto, using(octets::proofs::Tests::refusals), unfolding(crate::specs::Inner::addresses_fit))]
fn addresses_fit(kind: AddressKind, nlri: Nlri) -> bool
    ensures { result ≡ addresses_fit kind.bits nlri.route_type nlri }
{
    let route_type = nlri.route_type as usize;
    let source = nlri.source;
    let group = nlri.group;
    let originator = nlri.originator;
    if !nlri::is_allowed(kind, route_type, 8 * source.size as usize) {
        return false;
    }
    if !nlri::is_allowed(kind, route_type, 8 * group.size as usize) {
        return false;
    }
    originator_fits(route_type == RouteType::S_PMSI, originator.size as usize)
}

// Types with a source and a group: 3, 5, 6 and 7. WIDTH, GROUP, SPACE.
fn write_flow(kind: AddressKind, nlri: Nlri, output: &mut [u8]) -> Result<usize, Refusal>
    requires { (kind.bits ≡ 32) ⊎ (kind.bits ≡ 128) }
    ensures { Wrote (flow_written kind.bits nlri.route_type nlri (length output.old)) output.old (written_by result) output.new }
{
    if !addresses_fit(kind, nlri) {
        return Err(Refusal::Width);
    }
    if is_discarded(kind, nlri) {
        return Err(Refusal::Group);
    }
    let size = flow_size(nlri);
    if output.len() < HEADER + size {
        return Err(Refusal::Space);
    }
    let route_type = nlri.route_type as usize;
    Ok(put_flow(
        RouteType::SOURCE_ACTIVE < route_type,
        route_type == RouteType::S_PMSI,
        nlri,
        size,
        output,
    ))
}

// Puts an NLRI with these octets between the ends of its body, of `size` octets: a FEC or none.
fn put_between(
    numbered: bool,
    originated: bool,
    nlri: Nlri,
    between: &[u8],
    size: usize,
    output: &mut [u8],
) -> usize
    requires { (originated ≡ true → AddressSize nlri.originator.size) × Putting (body_with numbered originated nlri between.now) size output.old }
    ensures { Wrote (given (framed nlri.route_type (body_with numbered originated nlri between.now))) output.old (written_by (Ok result)) output.new }
{
    let at = put::put_front(numbered, nlri, size as u8, output);
    let next = octets::blocks::place_any(between, output, at);
    put::put_originator(originated, nlri, output, next);
    HEADER + size
}

// Types with a FEC: 0x43 and 0x47. WIDTH, IDENT and DEEP, LONG, SPACE.
fn write_fec(kind: AddressKind, nlri: Nlri, fec: &[u8], output: &mut [u8]) -> Result<usize, Refusal>
    ensures { Wrote (fec_written kind.bits nlri.route_type nlri fec.now (length output.old)) output.old (written_by result) output.new }
{
    let numbered = nlri.route_type as usize == RouteType::MLDP_SOURCE_TREE_JOIN;
    let originated = nlri.route_type as usize == RouteType::MLDP_S_PMSI;
    let originator = nlri.originator;
    if !originator_fits(originated, originator.size as usize) {
        return Err(Refusal::Width);
    }
    fec_elements::check(Standing::Lent(kind.root_family()), fec)?;
    let ends = front_size(numbered) + end_size(originated, originator.size as usize);
    if MOST - ends < fec.len() {
        return Err(Refusal::Long);
    }
    if output.len() < HEADER + ends + fec.len() {
        return Err(Refusal::Space);
    }
    Ok(put_between(numbered, originated, nlri, fec, ends + fec.len(), output))
}

// Puts an NLRI with a key, its body of `size` octets.
fn put_leaf(nlri: Nlri, key: &[u8], size: usize, output: &mut [u8]) -> usize
    requires { AddressSize nlri.originator.size × Putting (leaf_body nlri key.now) size output.old }
    ensures { Wrote (given (framed nlri.route_type (leaf_body nlri key.now))) output.old (written_by (Ok result)) output.new }
{
    let originator = nlri.originator;
    let at = put::put_header(nlri.route_type, size as u8, output);
    let next = octets::blocks::place_any(key, output, at);
    put::put_octets(originator, output, next);
    HEADER + size
}

// A body of a key and an originator that its Length cannot tell: of a Leaf of type 4 none is.
fn is_leaf_long(route_type: usize, key: usize, originator: usize) -> bool
    requires { originator ≤ 16 }
    ensures { result ≡ both (ltb 7 route_type) (ltb 255 (key + originator)) }
{
    if route_type <= RouteType::SOURCE_TREE_JOIN {
        return false;
    }
    MOST - originator < key
}

// Types with a key: 4 and 0x44. WIDTH, LONG, KEY, SPACE.
fn write_leaf(
    kind: AddressKind,
    nlri: Nlri,
    key: &[u8],
    output: &mut [u8],
) -> Result<usize, Refusal>
    requires fact { (kind.bits ≡ 32) ⊎ (kind.bits ≡ 128) }
    requires route_type_value { with_key nlri.route_type ≡ true }
    ensures { Wrote (leaf_written kind.bits nlri.route_type nlri key.now (length output.old)) output.old (written_by result) output.new }
{
    let route_type = nlri.route_type as usize;
    let originator = nlri.originator;
    let ending = originator.size as usize;
    if !nlri::is_originator_size(ending) {
        return Err(Refusal::Width);
    }
    if is_leaf_long(route_type, key.len(), ending) {
        return Err(Refusal::Long);
    }
    if !is_key(kind, route_type, key) {
        return Err(Refusal::Key);
    }
    if output.len() < HEADER + key.len() + ending {
        return Err(Refusal::Space);
    }
    Ok(put_leaf(nlri, key, key.len() + ending, output))
}

// Writing under the family of a kind of addresses, by the type.
fn write_under(
    kind: AddressKind,
    nlri: Nlri,
    key: &[u8],
    fec: &[u8],
    output: &mut [u8],
) -> Result<usize, Refusal>
    requires { (kind.bits ≡ 32) ⊎ (kind.bits ≡ 128) }
    ensures { Wrote (write_under kind.bits (struct_fields nlri key.now fec.now) (length output.old)) output.old (written_by result) output.new }
{
    let route_type = nlri.route_type as usize;
    if route::has_key(route_type) {
        return write_leaf(kind, nlri, key, output);
    }
    if route::has_fec(route_type) {
        return write_fec(kind, nlri, fec, output);
    }
    if RouteType::SOURCE_TREE_JOIN < route_type {
        return Err(Refusal::Type);
    }
    if RouteType::INTER_AS_I_PMSI < route_type {
        return write_flow(kind, nlri, output);
    }
    if route_type < RouteType::INTRA_AS_I_PMSI {
        return Err(Refusal::Type);
    }
    write_i_pmsi(nlri, output)
}

// Writing under an AFI.
fn write(afi: u16, nlri: Nlri, key: &[u8], fec: &[u8], output: &mut [u8]) -> Result<usize, Refusal>
    ensures { Wrote (write_nlri afi (struct_fields nlri key.now fec.now) (length output.old)) output.old (written_by result) output.new }
{
    let kind = nlri::family_of(afi)?;
    write_under(kind, nlri, key, fec, output)
}

// Writes an NLRI at the front of the output; `key` is a Leaf's key, `fec` an mLDP customer's FEC. FAMILY, TYPE, WIDTH, IDENT and DEEP, LONG, KEY,
// GROUP, SPACE.
pub fn write_nlri(afi: u16, nlri: Nlri, key: &[u8], fec: &[u8], output: &mut [u8]) -> Written
    ensures { Wrote (write_nlri afi (struct_fields nlri key.now fec.now) (length output.old)) output.old result output.new }
{
    Written::from(write(afi, nlri, key, fec, output))
}
