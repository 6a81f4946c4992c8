// A damaged table's good places brought into a sound table (request W-212).
ghost use Rattle.std.specs.Prelude.{◌≡◌, true, ◌+◌, ◌*◌, ◌≤◌, ◌<◌, length, Ok};
ghost use Rattle.octets.specs.Choice.{pick};
ghost use Rattle.octets.specs.Octets.{placed};
ghost use Rattle.routes.specs.Route.{nlri_of, holds};
ghost use Rattle.routes.specs.Place.{route_in, place_sound};
ghost use Rattle.routes.specs.Table.{afi_in, count_in, places_in, routes_of, sound_of, image_of};
ghost use Rattle.routes.specs.Salvage.{drop_octet, drop_octet_or_0, reason_of, kept_routes, dropped, dropped_octets, salvaged_by, salvage_of, LeavesBoth};
ghost use Rattle.salvage.specs.Salvaging.{with_good, with_place, Upto, Ready};

use changes::{change, find};
use octets::refusal::Refusal;
use places::{header, judge, place, sound};
use routes::{DropReason, SalvageCounts, Salvaged};

// The octets of the list for each place: its number and the reason.
const DROPPED_PLACE: usize = 3;

// The route of a good place entered with its mark, unless its NLRI is held: the reason to drop it, if any.
fn enter_place(table: &mut [u8], place: &[u8]) -> Option<DropReason>
    requires table_value { (sound_of table.old ≡ true) × (count_in table.old < places_in table.old) }
    requires place_len { (length place.now ≡ 128) × (place_sound (afi_in table.old) place.now ≡ true) }
    ensures value { drop_octet_or_0 result ≡ pick (holds (nlri_of (route_in place.now)) (routes_of table.old)) 2 0 }
    ensures table_after { table.new ≡ with_good place.now table.old }
{
    match find::search_from_last(table, place::nlri_in(place)) {
        Ok(_) => Some(DropReason::Repeated),
        Err(index) => {
            let count = header::count_of(table);
            change::add_place(table, index, count, place);
            None
        }
    }
}

// A place looked at: its route is entered where it is good and the first of its NLRI. The reason to drop it, if any.
fn look_at(afi: u16, place: &[u8], table: &mut [u8]) -> Option<DropReason>
    requires table_value { (sound_of table.old ≡ true) × (count_in table.old < places_in table.old) × (afi ≡ afi_in table.old) }
    requires place_len { length place.now ≡ 128 }
    ensures value { drop_octet_or_0 result ≡ reason_of afi place.now (routes_of table.old) }
    ensures table_after { table.new ≡ with_place afi place.now table.old }
{
    if judge::is_good(afi, place) {
        return enter_place(table, place);
    }
    if octets::order::is_zero(place) {
        return None;
    }
    Some(DropReason::Bad)
}

// A place that is dropped put into the list, behind those that it has.
fn enlist(list: &mut [u8], count: usize, number: usize, reason: DropReason)
    requires { (count < 500) × (number < 65536) × (3 * count + 3 ≤ length list.old) }
    ensures { list.new ≡ placed (3 * count) (dropped_octets (dropped number (drop_octet reason))) list.old }
{
    let octets = [
        (number / 256 % 256) as u8,
        (number % 256) as u8,
        u8::from(reason),
    ];
    octets::parts::place(&octets, list, DROPPED_PLACE * count);
}

// Every place, whatever the header says, into a table just made. How many are dropped.
fn look_at_all(afi: u16, damaged: &[u8], table: &mut [u8], list: &mut [u8]) -> usize
    requires ready { Ready afi damaged.now list.old }
    requires table_value { table.old ≡ image_of afi (places_in damaged.now) (kept_routes afi damaged.now 0) }
    ensures { Upto afi damaged.now list.old (places_in damaged.now) table.new list.new result }
{
    let places = header::places_of(damaged);
    let mut count = 0;
    for number in 0..places {
        if let Some(reason) = look_at(afi, place::place_at(damaged, number), table) {
            enlist(list, count, number, reason);
            count += 1;
        }
    }
    count
}

// Salvage into buffers that suffice.
fn salvage_into(afi: u16, damaged: &[u8], table: &mut [u8], list: &mut [u8]) -> SalvageCounts
    requires ready { Ready afi damaged.now list.old }
    requires table_len { length table.old ≡ length damaged.now }
    ensures { LeavesBoth (salvage_of afi damaged.now table.old list.old) (salvaged_by (Ok result)) table.new list.new }
{
    table::make(afi, table);
    let dropped = look_at_all(afi, damaged, table, list);
    SalvageCounts {
        kept: header::count_of(table) as u32,
        dropped: dropped as u32,
    }
}

// FAMILY; TABLE for the damaged one's size; SPACE for a second buffer of another size, or fewer than 3 octets a place for the list; then
// the work.
fn try_salvage(
    afi: u16,
    damaged: &[u8],
    table: &mut [u8],
    dropped: &mut [u8],
) -> Result<SalvageCounts, Refusal>
    ensures { LeavesBoth (salvage_of afi damaged.now table.old dropped.old) (salvaged_by result) table.new dropped.new }
{
    if !header::is_family(afi) {
        return Err(Refusal::Family);
    }
    if !sound::is_table_size(damaged.len()) {
        return Err(Refusal::Table);
    }
    if table.len() != damaged.len() {
        return Err(Refusal::Space);
    }
    if dropped.len() < DROPPED_PLACE * header::places_of(damaged) {
        return Err(Refusal::Space);
    }
    Ok(salvage_into(afi, damaged, table, dropped))
}

// Writes a sound table of what is good in a damaged one, and lists each place dropped, in place order: FAMILY, TABLE, SPACE. A refusal
// leaves every octet as it was.
pub fn salvage(afi: u16, damaged: &[u8], table: &mut [u8], dropped: &mut [u8]) -> Salvaged
    ensures { LeavesBoth (salvage_of afi damaged.now table.old dropped.old) result table.new dropped.new }
{
    Salvaged::from(try_salvage(afi, damaged, table, dropped))
}
