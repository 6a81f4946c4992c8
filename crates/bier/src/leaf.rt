// Leaf routes in a lent list: each is judged in its turn, and those that count are gathered into a string. Key and identifier are read
// where they stand.
ghost use Rattle.std.specs.Prelude.{◌≡◌};
ghost use Rattle.octets.specs.Outcome.{number_of};
ghost use Rattle.octets.specs.Order.{same, zeros};
ghost use Rattle.octets.specs.Refusals.{result_number, outcome_in};
ghost use Rattle.tunnel.specs.Attribute.{fields_in};
ghost use Rattle.bier.specs.LeafRoutes.{read_leaf, bfr_id_in};
ghost use Rattle.bier.specs.Inner.{gathered_from, id_in, key_in, KeyWithin, AttributeStands, LeafStands, standing_id};

use crate::{FIELDS, bits};
use lists::item::{Item, Items};
use nlri::RouteType;
use octets::refusal::Refusal;
use octets::{order, parts};
use tunnel::TunnelType;

// Where the Length of a key stands in a Leaf's NLRI: the second octet of the key, which is behind the NLRI's header.
const KEY_LENGTH: usize = nlri::HEADER + 1;

// The BFR-id of a tunnel that is BIER in this sub-domain.
#[tactic(auto, using(crate::proofs::Functions::identified))]
fn bfr_id_in(attribute: &[u8], sub_domain: u32) -> Option<u32>
    requires { AttributeStands attribute.now }
    ensures { id_in result ≡ bfr_id_in sub_domain (fields_in attribute.now) }
{
    if attribute[1] != TunnelType::Bier as u8 {
        return None;
    }
    let bier = tunnel::bier_in(parts::after(attribute, tunnel::HEADER));
    if bier.sub_domain != sub_domain {
        return None;
    }
    Some(bier.bfr_id)
}

// A Leaf's key is the route's NLRI; sizes are compared before octets.
fn has_key(leaf: &[u8], nlri: &[u8]) -> bool
    requires { KeyWithin leaf.now }
    ensures { result ≡ same (key_in leaf.now) nlri.now }
{
    let size = nlri::HEADER + leaf[KEY_LENGTH] as usize;
    order::is_same(parts::between(leaf, nlri::HEADER, size), nlri)
}

// The BFR-id by which a Leaf route counts, if it does.
#[tactic(auto, using(crate::proofs::Functions::counting))]
fn id_of(leaf: &Item<'_, FIELDS>, nlri: &[u8], sub_domain: u32) -> Option<u32>
    requires { LeafStands leaf.now }
    ensures { id_in result ≡ standing_id nlri.now sub_domain leaf.now }
{
    if !has_key(leaf.field(0), nlri) {
        return None;
    }
    bfr_id_in(leaf.field(1), sub_domain)
}

// A Leaf route: NLRI reading with no octets after it, KIND where it is not type 4, attribute reading.
fn check_leaf(afi: u16, leaf: &Item<'_, FIELDS>) -> Result<(), Refusal>
    ensures { result_number result ≡ number_of (read_leaf afi leaf.now) }
{
    nlri::check_of_type(afi, RouteType::LEAF, leaf.field(0))?;
    tunnel::check(leaf.field(1))
}

// Each Leaf route in turn: the first that is refused decides, and a BFR-id by which one counts is added to the string.
pub(crate) fn gather(
    afi: u16,
    nlri: &[u8],
    sub_domain: u32,
    set: u8,
    leaves: Items<'_, FIELDS>,
) -> Result<[u8; 32], Refusal>
    ensures { outcome_in result ≡ gathered_from afi nlri.now sub_domain set (zeros 32) leaves.entry }
{
    let mut string = [0u8; bits::OCTETS];
    for leaf in leaves {
        check_leaf(afi, &leaf)?;
        if let Some(id) = id_of(&leaf, nlri, sub_domain) {
            bits::add(&mut string, set, id);
        }
    }
    Ok(string)
}
