// A place: its NLRI and its attribute read where they stand, and a route written into it.
ghost use Rattle.std.specs.Prelude.{◌≡◌, ◌+◌, ◌*◌, ◌≤◌, length};
ghost use Rattle.octets.specs.Octets.{part};
ghost use Rattle.octets.specs.Order.{same};
ghost use Rattle.nlri.specs.Standing.{standing};
ghost use Rattle.routes.specs.Route.{route, nlri_of, attribute_of};
ghost use Rattle.routes.specs.Place.{end_in, place_of, route_in};
ghost use Rattle.places.specs.Readable.{nlri_at, Bounded, Readable};

use crate::geometry::{ATTRIBUTE_SIZE, HEADER, NLRI_SIZE, PLACE, ROUTE};

// The place of an index.
pub fn place_at(table: &[u8], index: usize) -> &[u8]
    requires { 8 + 128 * index + 128 ≤ length table.now }
    ensures { result.now ≡ part table.now (8 + 128 * index) 128 }
{
    octets::parts::between(table, HEADER + PLACE * index, PLACE)
}

// The NLRI in a place.
#[tactic(auto, unfolding(routes::specs::Place::end_in, routes::specs::Place::route_in, routes::specs::Route::nlri_of))]
pub fn nlri_in(place: &[u8]) -> &[u8]
    requires { end_in place.now ≤ length place.now }
    ensures { result.now ≡ nlri_of (route_in place.now) }
{
    octets::parts::between(place, ROUTE, place[NLRI_SIZE] as usize)
}

// The attribute in a place.
#[tactic(auto, unfolding(routes::specs::Place::end_in, routes::specs::Place::route_in, routes::specs::Route::attribute_of))]
pub fn attribute_in(place: &[u8]) -> &[u8]
    requires { end_in place.now ≤ length place.now }
    ensures { result.now ≡ attribute_of (route_in place.now) }
{
    octets::parts::between(
        place,
        ROUTE + place[NLRI_SIZE] as usize,
        place[ATTRIBUTE_SIZE] as usize,
    )
}

// The NLRI in the place that starts there.
pub fn nlri_from(table: &[u8], at: usize) -> &[u8]
    requires { Readable table.now at }
    ensures { result.now ≡ nlri_at table.now at }
{
    nlri_in(octets::parts::between(table, at, PLACE))
}

// The route is one of the router's, by its originator.
pub fn is_of(nlri: &[u8], router: &[u8]) -> bool
    requires { Bounded nlri.now }
    ensures { result ≡ same (standing nlri.now).originator router.now }
{
    octets::order::is_same(nlri::standing::originator_in(nlri), router)
}

// The sizes, the NLRI and the attribute of a route, and zeros to the end.
pub fn write_place(place: &mut [u8], nlri: &[u8], attribute: &[u8])
    requires place_len { length place.old ≡ 128 }
    requires attribute_len_bound { length nlri.now + length attribute.now ≤ 125 }
    ensures { place.new ≡ place_of (route nlri.now attribute.now) }
{
    octets::parts::clear(place);
    let sizes = [nlri.len() as u8, attribute.len() as u8];
    let start = octets::parts::place(&sizes, place, 0);
    let end = octets::parts::place(nlri, place, start);
    octets::parts::place(attribute, place, end);
}
