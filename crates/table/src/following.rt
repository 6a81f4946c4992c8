// The call that tells the route that comes next after an NLRI.
ghost use Rattle.std.specs.Prelude.{◌≡◌, true, ◌≤◌, length, drop, Ok};
ghost use Rattle.octets.specs.Outcome.{given};
ghost use Rattle.routes.specs.Table.{routes_of, sound_of};
ghost use Rattle.routes.specs.Next.{next_in, following_by, following_told, next_of};
ghost use Rattle.octets.specs.Outputs.{Leaves};
ghost use Rattle.table.specs.Following.{first_found};

use changes::change::RouteMark;
use changes::find;
use octets::refusal::Refusal;
use places::geometry::MARK;
use places::output::LEAST_OUTPUT;
use places::{header, output, place, sound};
use routes::{Following, NextRoute};

// The index of the route that comes next: that where the NLRI belongs, or the one behind it where the NLRI stands.
fn index_after(table: &[u8], nlri: &[u8]) -> usize
    requires { sound_of table.now ≡ true }
    ensures { first_found (drop result (routes_of table.now)) ≡ next_in nlri.now (routes_of table.now) }
{
    match find::search(table, nlri) {
        Ok(index) => index + 1,
        Err(index) => index,
    }
}

// The route at an index, written, with its mark; none behind the last.
fn tell_at(table: &[u8], index: usize, output: &mut [u8]) -> Option<NextRoute>
    requires { (sound_of table.now ≡ true) × (124 ≤ length output.old) }
    ensures { Leaves (following_by (given (first_found (drop index (routes_of table.now)))) output.old) (following_told (Ok result)) output.new }
{
    if header::count_of(table) <= index {
        return None;
    }
    let place = place::place_at(table, index);
    let sizes = output::write_route(place, output);
    Some(NextRoute {
        nlri_size: sizes.nlri,
        attribute_size: sizes.attribute,
        is_stale: place[MARK] == RouteMark::Stale as u8,
    })
}

// TABLE, SPACE, then the route.
fn try_next(table: &[u8], nlri: &[u8], output: &mut [u8]) -> Result<Option<NextRoute>, Refusal>
    ensures { Leaves (next_of table.now nlri.now output.old) (following_told result) output.new }
{
    if !sound::is_sound(table) {
        return Err(Refusal::Table);
    }
    if output.len() < LEAST_OUTPUT {
        return Err(Refusal::Space);
    }
    Ok(tell_at(table, index_after(table, nlri), output))
}

// Finds the route that comes next after these octets, held or not, and writes it at the front of the output: TABLE, SPACE.
pub fn next(table: &[u8], nlri: &[u8], output: &mut [u8]) -> Following
    ensures { Leaves (next_of table.now nlri.now output.old) result output.new }
{
    Following::from(try_next(table, nlri, output))
}
