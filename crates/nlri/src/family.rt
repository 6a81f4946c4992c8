// Address families: every function below the calls goes by the kind of the family's addresses.
ghost use Rattle.std.specs.Prelude.{◌≡◌};
ghost use Rattle.nlri.specs.Family.{FamilyTold, family_bits, family_outcome};

use crate::address::AddressKind;
use octets::refusal::Refusal;

// Address families.
#[derive(Clone, Copy, Debug, PartialEq, Eq)]
pub enum AddressFamily {
    Ipv4 = 1,
    Ipv6 = 2,
}

// By its AFI. FAMILY.
impl TryFrom<u16> for AddressFamily {
    type Error = Refusal;

    ghost try_from_gives = { FamilyTold };

    fn try_from(afi: u16) -> Result<AddressFamily, Refusal> {
        match afi {
            1 => Ok(AddressFamily::Ipv4),
            2 => Ok(AddressFamily::Ipv6),
            _ => Err(Refusal::Family),
        }
    }
}

// The kind of the addresses of an AFI's family. FAMILY.
pub fn family_of(afi: u16) -> Result<AddressKind, Refusal>
    ensures { family_outcome result ≡ family_bits afi }
{
    match AddressFamily::try_from(afi)? {
        AddressFamily::Ipv4 => Ok(AddressKind::ipv4()),
        AddressFamily::Ipv6 => Ok(AddressKind::ipv6()),
    }
}
