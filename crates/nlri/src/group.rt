// The class of a customer group (RFC 4607).
ghost use Rattle.std.specs.Prelude.{◌≡◌, ◌≤◌, length};
ghost use Rattle.octets.specs.Outcome.{refused};
ghost use Rattle.nlri.specs.Groups.{multicast, source_specific, is_ssm, class_under, class_of, class_outcome, group_of};

use crate::address::AddressKind;
use crate::family;
use octets::number::DONE;
use octets::refusal::Refusal;

// Any-source and source-specific multicast.
#[derive(Clone, Copy, Debug, PartialEq, Eq)]
pub enum GroupClass {
    Asm = 1,
    Ssm = 2,
}

// The number, and the class, or 0 on a refusal.
#[repr(C)]
#[derive(Clone, Copy)]
pub struct Group {
    pub number: u32,
    pub group_class: u32,
}

impl Group {
    // A group that is refused.
    #[tactic(auto, unfolding(crate::specs::Groups::group_of, octets::specs::Outcome::number_of, octets::specs::Outcome::on_outcome))]
    pub fn refused(number: u32) -> Group
        ensures { result ≡ group_of (refused number) }
    {
        Group {
            number,
            group_class: 0,
        }
    }
}

impl From<Result<GroupClass, Refusal>> for Group {
    ghost from_gives = { λ class group. group ≡ group_of (class_outcome class) };

    fn from(class: Result<GroupClass, Refusal>) -> Group {
        match class {
            Ok(class) => Group {
                number: DONE,
                group_class: class as u32,
            },
            Err(refusal) => Group::refused(refusal.number()),
        }
    }
}

// 224.0.0.0/4, FF00::/8
#[tactic(auto, using(octets::proofs::Tests::flags), unfolding(crate::specs::Groups::multicast))]
fn is_multicast(kind: AddressKind, group: &[u8]) -> bool
    requires { 4 ≤ length group.now }
    ensures { result ≡ multicast kind.bits group.now }
{
    if kind.bits == AddressKind::IPV4 {
        return 224 <= group[0] && group[0] <= 239;
    }
    group[0] == 255
}

// 232.0.0.0/8, FF3x::/32
#[tactic(auto, using(octets::proofs::Tests::flags), unfolding(crate::specs::Groups::source_specific))]
fn is_source_specific(kind: AddressKind, group: &[u8]) -> bool
    requires { 4 ≤ length group.now }
    ensures { result ≡ source_specific kind.bits group.now }
{
    if kind.bits == AddressKind::IPV4 {
        return group[0] == 232;
    }
    group[0] == 255 && group[1] / 16 == 3 && group[2] == 0 && group[3] == 0
}

// Whether octets of any number are a group of that range.
#[tactic(auto, using(octets::proofs::Tests::flags), unfolding(crate::specs::Groups::is_ssm))]
pub fn is_ssm(kind: AddressKind, group: &[u8]) -> bool
    ensures { result ≡ is_ssm kind.bits group.now }
{
    4 <= group.len() && is_source_specific(kind, group)
}

// The class of a group under the family of a kind of addresses. FLOW.
fn class_under(kind: AddressKind, group: &[u8]) -> Result<GroupClass, Refusal>
    requires { 32 ≤ kind.bits }
    ensures { class_outcome result ≡ class_under kind.bits group.now }
{
    if group.len() != kind.octets() {
        return Err(Refusal::Flow);
    }
    if !is_multicast(kind, group) {
        return Err(Refusal::Flow);
    }
    if is_source_specific(kind, group) {
        return Ok(GroupClass::Ssm);
    }
    Ok(GroupClass::Asm)
}

// The class of a group by the standard range. FAMILY, FLOW.
pub fn group_class(afi: u16, group: &[u8]) -> Result<GroupClass, Refusal>
    ensures { class_outcome result ≡ class_of afi group.now }
{
    let kind = family::family_of(afi)?;
    class_in(kind, group)
}

// A branch for each family: what is compiled of each tests no family.
fn class_in(kind: AddressKind, group: &[u8]) -> Result<GroupClass, Refusal>
    requires { 32 ≤ kind.bits }
    ensures { class_outcome result ≡ class_under kind.bits group.now }
{
    if kind.bits == AddressKind::IPV4 {
        return class_under(AddressKind::ipv4(), group);
    }
    class_under(kind, group)
}
