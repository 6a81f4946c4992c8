// Routes that are proposed as table places, judged where they lie, of flows that are not refused.
ghost use Rattle.std.specs.Prelude.{◌≡◌, true, ◌/◌, ◌≤◌, length};
ghost use Rattle.routes.specs.Route.{nlri_of, holds};
ghost use Rattle.routes.specs.Place.{end_in, route_in};
ghost use Rattle.routes.specs.Table.{routes_from};
ghost use Rattle.places.specs.Readable.{Bounded};
ghost use Rattle.plan.specs.Flows.{asking};
ghost use Rattle.plan.specs.Judging.{no_repeat, serves, all_served, accepts_places};
ghost use Rattle.plan.specs.Inner.{vrf_in, stands_as, own_good_place, good_places, EachEnds, Proposed, BestFor};

use crate::flows::{Flow, Flows};
use crate::vrf::Vrf;
use matches::flow;
use matches::scan::Best;
use matches::tier::{Sought, Tiers};
use nlri::standing;
use octets::{order, parts};
use places::geometry::PLACE;
use places::{judge, place};

// The NLRI in a place has the VRF's originator and RD.
fn is_own(vrf: &Vrf<'_>, place: &[u8]) -> bool
    requires { (end_in place.now ≤ length place.now) × Bounded (nlri_of (route_in place.now)) }
    ensures { result ≡ stands_as vrf.now.originator.now vrf.now.distinguisher.now (nlri_of (route_in place.now)) }
{
    let nlri = place::nlri_in(place);
    if !place::is_of(nlri, vrf.originator) {
        return false;
    }
    order::is_same(standing::distinguisher_in(nlri), vrf.distinguisher)
}

// A place is good by itself, and its route is the VRF's own.
fn is_good(vrf: &Vrf<'_>, place: &[u8]) -> bool
    requires { length place.now ≡ 128 }
    ensures { result ≡ own_good_place vrf.now.afi vrf.now.originator.now vrf.now.distinguisher.now place.now }
{
    if !judge::is_good(vrf.afi, place) {
        return false;
    }
    is_own(vrf, place)
}

// Each place is.
fn are_good(vrf: &Vrf<'_>, places: &[u8]) -> bool
    ensures { result ≡ good_places vrf.now.afi vrf.now.originator.now vrf.now.distinguisher.now (length places.now / 128) places.now }
{
    for place in places.chunks_exact(PLACE) {
        if !is_good(vrf, place) {
            return false;
        }
    }
    true
}

// An NLRI stands in one of the places.
fn is_held(nlri: &[u8], places: &[u8]) -> bool
    requires { EachEnds (length places.now / 128) places.now }
    ensures { result ≡ holds nlri.now (routes_from (length places.now / 128) places.now) }
{
    for place in places.chunks_exact(PLACE) {
        if order::is_same(nlri, place::nlri_in(place)) {
            return true;
        }
    }
    false
}

// No NLRI repeats.
fn is_each_once(places: &[u8]) -> bool
    requires { EachEnds (length places.now / 128) places.now }
    ensures { result ≡ no_repeat (routes_from (length places.now / 128) places.now) }
{
    let mut rest = places;
    while let Some((place, behind)) = rest.split_at_checked(PLACE) {
        if is_held(place::nlri_in(place), behind) {
            return false;
        }
        rest = behind;
    }
    true
}

// The place that a flow's match over the places alone takes.
fn best_for(vrf: &Vrf<'_>, flow: &Flow<'_>, places: &[u8]) -> Option<Best>
    requires { Proposed vrf.now.afi places.now (length places.now / 128) }
    ensures { BestFor vrf.now.afi (asking (vrf_in vrf.now) flow.now) places.now (length places.now / 128) result }
{
    let (source, group) = (flow.source(), flow.group());
    let Ok(class) = groups::group_class(vrf.afi, vrf.prefixes, group) else {
        return None;
    };
    let Ok(()) = flow::check_sizes(vrf.originator.len(), source.len(), group.len()) else {
        return None;
    };
    let sought = Sought {
        router: vrf.originator,
        source,
        group,
        tiers: Tiers::of_class(class as u32),
    };
    sought.best(places, places.len() / PLACE)
}

// That place has the wanted attribute.
fn is_served(vrf: &Vrf<'_>, flow: &Flow<'_>, places: &[u8]) -> bool
    requires { Proposed vrf.now.afi places.now (length places.now / 128) }
    ensures { result ≡ serves vrf.now.afi (vrf_in vrf.now) (routes_from (length places.now / 128) places.now) flow.now }
{
    let Some(best) = best_for(vrf, flow, places) else {
        return false;
    };
    let place = parts::between(places, best.start, PLACE);
    order::is_same(place::attribute_in(place), flow.wanted())
}

// Each flow's has.
fn are_served(vrf: &Vrf<'_>, flows: &Flows<'_>, places: &[u8]) -> bool
    requires { Proposed vrf.now.afi places.now (length places.now / 128) }
    ensures { result ≡ all_served vrf.now.afi (vrf_in vrf.now) (routes_from (length places.now / 128) places.now) flows.now }
{
    for flow in flows.again() {
        if !is_served(vrf, &flow, places) {
            return false;
        }
    }
    true
}

// Whole places, each good, no NLRI repeated, and each flow served.
pub(crate) fn is_accepted(vrf: &Vrf<'_>, flows: &Flows<'_>, places: &[u8]) -> bool
    ensures { result ≡ accepts_places vrf.now.afi (vrf_in vrf.now) flows.now places.now }
{
    if places.len() % PLACE != 0 {
        return false;
    }
    if !are_good(vrf, places) {
        return false;
    }
    if !is_each_once(places) {
        return false;
    }
    are_served(vrf, flows, places)
}
