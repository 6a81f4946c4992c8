// Arguments of calls and the routes in places, judged where they stand.
ghost use Rattle.std.specs.Prelude.{◌≡◌, length};
ghost use Rattle.octets.specs.Numbers.{DONE};
ghost use Rattle.octets.specs.Outcome.{number_of};
ghost use Rattle.octets.specs.Refusals.{result_number};
ghost use Rattle.tunnel.specs.Attribute.{read_attribute};
ghost use Rattle.routes.specs.Arguments.{read_s_pmsi, read_labelled, read_route};
ghost use Rattle.routes.specs.Place.{place_sound};

use crate::sound;
use nlri::RouteType;
use octets::refusal::Refusal;
use tunnel::TunnelType;

// A well-formed S-PMSI NLRI: NLRI reading with no octets after it, then KIND.
#[tactic(auto, unfolding(routes::specs::Arguments::read_s_pmsi))]
pub fn check_s_pmsi(afi: u16, nlri: &[u8]) -> Result<(), Refusal>
    ensures { result_number result ≡ number_of (read_s_pmsi afi nlri.now) }
{
    nlri::check_of_type(afi, RouteType::S_PMSI, nlri)
}

// LABEL, of an attribute that reading accepts.
pub(crate) fn check_label(attribute: &[u8]) -> Result<(), Refusal>
    requires { number_of (read_attribute attribute.now) ≡ DONE }
    ensures { result_number result ≡ number_of (read_labelled attribute.now) }
{
    if attribute[1] != TunnelType::Bier as u8 {
        return Ok(());
    }
    if octets::wide::three(attribute, tunnel::LABEL_FIELD) / 16 != 0 {
        return Ok(());
    }
    Err(Refusal::Label)
}

// An attribute that install takes: attribute reading, then LABEL.
pub fn check_attribute(attribute: &[u8]) -> Result<(), Refusal>
    ensures { result_number result ≡ number_of (read_labelled attribute.now) }
{
    tunnel::check(attribute)?;
    check_label(attribute)
}

// A route that install takes, room apart.
pub fn check_route(afi: u16, nlri: &[u8], attribute: &[u8]) -> Result<(), Refusal>
    ensures { result_number result ≡ number_of (read_route afi nlri.now attribute.now) }
{
    check_s_pmsi(afi, nlri)?;
    check_attribute(attribute)
}

// A place is good by itself: install would take its route, zeros follow, and its mark is 0 or 1.
pub fn is_good(afi: u16, place: &[u8]) -> bool
    requires { length place.now ≡ 128 }
    ensures { result ≡ place_sound afi place.now }
{
    sound::is_place_sound(afi, place)
}
