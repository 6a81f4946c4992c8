// Which identifiers each tunnel type takes (document 01, the table of "PMSI Tunnel attribute").
#![tactic(auto, using(octets::proofs::Tests::flags), unfolding(crate::specs::Identifier::is_identifier, crate::specs::Identifier::one_of))]

ghost use Rattle.std.specs.Prelude.{◌≡◌, ◌<◌, length, [], ◌∷◌};
ghost use Rattle.octets.specs.Outcome.{number_of};
ghost use Rattle.octets.specs.Refusals.{result_number};
ghost use Rattle.fec_elements.specs.FecTypes.{fec_type_octet};
ghost use Rattle.tunnel.specs.Identifier.{fec_types, is_identifier, read_identifier};
ghost use Rattle.tunnel.specs.TunnelTypes.{tunnel_type_octet};
ghost use Rattle.tunnel.specs.Inner.{form_told, IsRow};

use crate::sizes;
use crate::tunnel_type::TunnelType;
use fec_elements::shape;
use fec_elements::shape::FecType;
use octets::refusal::Refusal;

// A form of identifiers: of one of two sizes, or FECs of one of two types; the same twice where there is only one.
#[derive(Clone, Copy)]
enum Form {
    Sizes(usize, usize),
    Fecs(FecType, FecType),
}

// A FEC of one of two types; the type is its first octet.
fn is_fec(identifier: &[u8], first: FecType, second: FecType) -> bool
    requires { length identifier.now < 256 }
    ensures { result ≡ is_identifier (fec_types (fec_type_octet first ∷ fec_type_octet second ∷ [])) identifier.now }
{
    if !shape::is_short(identifier) {
        return false;
    }
    let fec_type = identifier[0];
    fec_type == first as u8 || fec_type == second as u8
}

// An identifier of a form.
fn is_of_form(identifier: &[u8], form: Form) -> bool
    requires { length identifier.now < 256 }
    ensures { result ≡ is_identifier (form_told form) identifier.now }
{
    match form {
        Form::Sizes(first, second) => identifier.len() == first || identifier.len() == second,
        Form::Fecs(first, second) => is_fec(identifier, first, second),
    }
}

// The row of a tunnel type.
fn form_of(tunnel_type: TunnelType) -> Form
    ensures { IsRow (tunnel_type_octet tunnel_type) result }
{
    match tunnel_type {
        TunnelType::NoTunnel => Form::Sizes(0, 0),
        TunnelType::RsvpTeP2mp => Form::Sizes(sizes::RSVP_TE_SESSION, sizes::RSVP_TE_SESSION),
        TunnelType::MldpP2mp => Form::Fecs(FecType::P2mp, FecType::P2mp),
        TunnelType::PimSsm => Form::Sizes(sizes::TWO_IPV4, sizes::TWO_IPV6),
        TunnelType::PimSm => Form::Sizes(sizes::TWO_IPV4, sizes::TWO_IPV6),
        TunnelType::BidirPim => Form::Sizes(sizes::TWO_IPV4, sizes::TWO_IPV6),
        TunnelType::IngressReplication => Form::Sizes(sizes::IPV4, sizes::IPV6),
        TunnelType::MldpMp2mp => Form::Fecs(FecType::Mp2mpUp, FecType::Mp2mpDown),
        TunnelType::Bier => Form::Sizes(sizes::BIER_IPV4, sizes::BIER_IPV6),
    }
}

// The first fault of an identifier, TUNNEL or IDENT: the one judge for reading and writing.
pub(crate) fn check(tunnel_type: u8, identifier: &[u8]) -> Result<(), Refusal>
    requires { length identifier.now < 256 }
    ensures { result_number result ≡ number_of (read_identifier tunnel_type identifier.now) }
{
    let form = form_of(TunnelType::try_from(tunnel_type)?);
    if is_of_form(identifier, form) {
        return Ok(());
    }
    Err(Refusal::Ident)
}
