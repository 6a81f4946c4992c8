// Who must get the BIER packet (request W-211; RFC 8556, section 4.1): the bit string of a set for a route, by Leaf routes that a caller
// lends, and how many egress routers are in it.
#![tactic(auto)]

ghost use Rattle.std.specs.Prelude.{◌≡◌};
ghost use Rattle.octets.specs.Outputs.{Leaves};
ghost use Rattle.octets.specs.Refusals.{outcome_in};
ghost use Rattle.bier.specs.BierString.{read_bier_route, with_room, egress_by, egress_of};
ghost use Rattle.bier.specs.Inner.{leaf_items, egress_in};

use lists::item::Items;
use octets::number::DONE;
use octets::parts;
use octets::refusal::Refusal;
use places::judge;
use tunnel::TunnelType;

mod bits;
mod leaf;

// The fields of an item of the list: a Leaf's NLRI, and its attribute.
const FIELDS: usize = 2;

const MOST_LEAVES: usize = 1024;

// What the call answers: the number, and how many egress routers are in the string, 0 on a refusal.
#[repr(C)]
#[derive(Clone, Copy)]
pub struct Egress {
    pub number: u32,
    pub routers: u32,
}

impl From<Result<u32, Refusal>> for Egress {
    ghost from_gives = { λ done egress. egress ≡ egress_in done };

    fn from(done: Result<u32, Refusal>) -> Egress {
        match done {
            Ok(routers) => Egress {
                number: DONE,
                routers,
            },
            Err(refusal) => Egress {
                number: refusal.number(),
                routers: 0,
            },
        }
    }
}

// The sub-domain of a route: its own install numbers, then TUNNEL where its tunnel is not BIER.
fn sub_domain_of(afi: u16, nlri: &[u8], attribute: &[u8]) -> Result<u32, Refusal>
    ensures { outcome_in result ≡ read_bier_route afi nlri.now attribute.now }
{
    judge::check_route(afi, nlri, attribute)?;
    if attribute[1] != TunnelType::Bier as u8 {
        return Err(Refusal::Tunnel);
    }
    Ok(tunnel::bier_in(parts::after(attribute, tunnel::HEADER)).sub_domain)
}

// The Leaf routes: LONG over 1,024 of them, SHORT for a list that ends before them.
#[tactic(auto, using(crate::proofs::Calls::listing))]
fn leaves_in(list: &[u8]) -> Result<Items<'_, FIELDS>, Refusal>
    ensures { outcome_in result ≡ leaf_items list.now }
{
    if MOST_LEAVES < lists::count_of(list) {
        return Err(Refusal::Long);
    }
    if !lists::is_whole(list, FIELDS) {
        return Err(Refusal::Short);
    }
    Ok(lists::items_of(list))
}

// Writes a string at the front of an output that has room for it: how many egress routers are in it.
#[tactic(auto, using(crate::proofs::Calls::writing))]
fn write(string: &[u8; 32], output: &mut [u8]) -> Result<u32, Refusal>
    ensures { Leaves (egress_by (with_room string.now output.old) output.old) (egress_in result) output.new }
{
    if output.len() < bits::OCTETS {
        return Err(Refusal::Space);
    }
    parts::place(string, output, 0);
    Ok(bits::ones(string))
}

// Writes the bit string of a set: how many egress routers are in it.
fn write_string(
    afi: u16,
    nlri: &[u8],
    attribute: &[u8],
    set: u8,
    leaves: &[u8],
    output: &mut [u8],
) -> Result<u32, Refusal>
    ensures { Leaves (egress_of afi nlri.now attribute.now set leaves.now output.old) (egress_in result) output.new }
{
    let sub_domain = sub_domain_of(afi, nlri, attribute)?;
    let leaves = leaves_in(leaves)?;
    let string = leaf::gather(afi, nlri, sub_domain, set, leaves)?;
    write(&string, output)
}

// Writes the bit string of a set, and answers how many egress routers are in it.
pub fn bier_string(
    afi: u16,
    nlri: &[u8],
    attribute: &[u8],
    set: u8,
    leaves: &[u8],
    output: &mut [u8],
) -> Egress
    ensures { Leaves (egress_of afi nlri.now attribute.now set leaves.now output.old) result output.new }
{
    Egress::from(write_string(afi, nlri, attribute, set, leaves, output))
}
