// Install: TABLE, then its arguments, then ROOM (document 01, "The numbers a call gives back").
ghost use Rattle.std.specs.Prelude.{◌≡◌, true, false, drop};
ghost use Rattle.octets.specs.Outcome.{number_of};
ghost use Rattle.routes.specs.Arguments.{read_route};
ghost use Rattle.routes.specs.Answers.{installed_by};
ghost use Rattle.routes.specs.Table.{afi_in, routes_of, sound_of};
ghost use Rattle.routes.specs.Calls.{install_of};
ghost use Rattle.octets.specs.Outputs.{Leaves};
ghost use Rattle.changes.specs.Changing.{rank, first_is};

use changes::{change, find};
use octets::refusal::Refusal;
use places::{header, judge, sound};
use routes::{Installation, Installed};

// A route of an NLRI that is not held, entered at the index where it belongs: ROOM.
fn enter_new(
    table: &mut [u8],
    index: usize,
    nlri: &[u8],
    attribute: &[u8],
) -> Result<Installation, Refusal>
    requires table_value { sound_of table.old ≡ true }
    requires attribute_value { number_of (read_route (afi_in table.old) nlri.now attribute.now) ≡ 0 }
    requires index_value { index ≡ rank nlri.now (routes_of table.old) }
    requires table_value_2 { first_is nlri.now (drop index (routes_of table.old)) ≡ false }
    ensures { Leaves (install_of table.old nlri.now attribute.now) (installed_by result) table.new }
{
    let count = header::count_of(table);
    if header::places_of(table) <= count {
        return Err(Refusal::Room);
    }
    change::add(table, index, count, nlri, attribute);
    Ok(Installation::New)
}

// A route that is acceptable, entered where its NLRI stands or belongs.
fn enter(table: &mut [u8], nlri: &[u8], attribute: &[u8]) -> Result<Installation, Refusal>
    requires table_value { sound_of table.old ≡ true }
    requires attribute_value { number_of (read_route (afi_in table.old) nlri.now attribute.now) ≡ 0 }
    ensures { Leaves (install_of table.old nlri.now attribute.now) (installed_by result) table.new }
{
    match find::search(table, nlri) {
        Ok(index) => {
            change::replace(table, index, nlri, attribute);
            Ok(Installation::Replaced)
        }
        Err(index) => enter_new(table, index, nlri, attribute),
    }
}

// TABLE, the arguments' refusals, then the route entered.
fn try_install(table: &mut [u8], nlri: &[u8], attribute: &[u8]) -> Result<Installation, Refusal>
    ensures { Leaves (install_of table.old nlri.now attribute.now) (installed_by result) table.new }
{
    if !sound::is_sound(table) {
        return Err(Refusal::Table);
    }
    judge::check_route(header::afi_of(table), nlri, attribute)?;
    enter(table, nlri, attribute)
}

// Enters a route, or gives the route of its NLRI this attribute. A refusal leaves every octet as it was.
pub fn install(table: &mut [u8], nlri: &[u8], attribute: &[u8]) -> Installed
    ensures { Leaves (install_of table.old nlri.now attribute.now) result table.new }
{
    Installed::from(try_install(table, nlri, attribute))
}
