// The route of a place, written at the front of an output.
ghost use Rattle.std.specs.Prelude.{◌≡◌, ◌+◌, ◌≤◌, length};
ghost use Rattle.octets.specs.Octets.{placed};
ghost use Rattle.octets.specs.Outcome.{given};
ghost use Rattle.octets.specs.Outputs.{Leaves};
ghost use Rattle.tunnel.specs.Attribute.{fields_in, read_attribute};
ghost use Rattle.routes.specs.Place.{route_in};
ghost use Rattle.places.specs.Writing.{RouteFits, written_route};

use crate::place;

// An output that every route fits into, NLRI and attribute.
pub const LEAST_OUTPUT: usize = 124;

// The octets of a route that were written: of its NLRI, and of its attribute.
#[derive(Clone, Copy)]
pub struct RouteSizes {
    pub nlri: u32,
    pub attribute: u32,
}

// Writes an attribute as it was read, into the output's remaining part, and answers its size.
fn write_attribute(attribute: &[u8], output: &mut [u8], at: usize) -> usize
    requires { (read_attribute attribute.now ≡ given (fields_in attribute.now)) × (at + length attribute.now ≤ length output.old) }
    ensures value { result ≡ length attribute.now }
    ensures output_after { output.new ≡ placed at attribute.now output.old }
{
    let label_field = octets::wide::three(attribute, tunnel::LABEL_FIELD);
    let identifier = octets::parts::after(attribute, tunnel::HEADER);
    let written = tunnel::write(
        attribute[0],
        attribute[1],
        label_field,
        identifier,
        &mut output[at..],
    );
    written.size
}

// NLRI and attribute, one straight after the other.
pub fn write_route(place: &[u8], output: &mut [u8]) -> RouteSizes
    requires { RouteFits place.now output.old }
    ensures { Leaves (written_route (route_in place.now) output.old) result output.new }
{
    let nlri = octets::parts::place(place::nlri_in(place), output, 0);
    let attribute = write_attribute(place::attribute_in(place), output, nlri);
    RouteSizes {
        nlri: nlri as u32,
        attribute: attribute as u32,
    }
}
