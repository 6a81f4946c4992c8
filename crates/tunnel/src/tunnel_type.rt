// The tunnel types (RFC 6514, section 5; RFC 8556, section 2).
ghost use Rattle.std.specs.Prelude.{◌≡◌};
ghost use Rattle.tunnel.specs.TunnelTypes.{is_mldp, IsTypeOf};

use octets::refusal::Refusal;

#[derive(Clone, Copy, Debug, PartialEq, Eq)]
pub enum TunnelType {
    NoTunnel = 0,
    RsvpTeP2mp = 1,
    MldpP2mp = 2,
    PimSsm = 3,
    PimSm = 4,
    BidirPim = 5,
    IngressReplication = 6,
    MldpMp2mp = 7,
    Bier = 11,
}

impl TunnelType {
    // Its identifiers are FECs.
    pub(crate) fn is_mldp(self) -> bool
        ensures { result ≡ is_mldp self }
    {
        matches!(self, TunnelType::MldpP2mp | TunnelType::MldpMp2mp)
    }
}

impl TryFrom<u8> for TunnelType {
    type Error = Refusal;

    ghost try_from_gives = { IsTypeOf };

    fn try_from(octet: u8) -> Result<TunnelType, Refusal> {
        match octet {
            0 => Ok(TunnelType::NoTunnel),
            1 => Ok(TunnelType::RsvpTeP2mp),
            2 => Ok(TunnelType::MldpP2mp),
            3 => Ok(TunnelType::PimSsm),
            4 => Ok(TunnelType::PimSm),
            5 => Ok(TunnelType::BidirPim),
            6 => Ok(TunnelType::IngressReplication),
            7 => Ok(TunnelType::MldpMp2mp),
            11 => Ok(TunnelType::Bier),
            _ => Err(Refusal::Tunnel),
        }
    }
}
