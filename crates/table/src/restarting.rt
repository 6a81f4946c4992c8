// Mark and sweep (request W-208): TABLE, then FLOW; then one pass over the places, which keeps those that stay in table memory.
ghost use Rattle.std.specs.Prelude.{◌≡◌, true, ◌≤◌};
ghost use Rattle.routes.specs.Table.{image_of, afi_in, count_in, places_in, routes_of, sound_of};
ghost use Rattle.routes.specs.Restart.{renewed, gone_of};
ghost use Rattle.routes.specs.Answers.{restarted_by};
ghost use Rattle.routes.specs.Calls.{restart_of, mark_of, sweep_of};
ghost use Rattle.octets.specs.Outputs.{Leaves};
ghost use Rattle.places.specs.Readable.{Readable};
ghost use Rattle.changes.specs.Changing.{mark_number};
ghost use Rattle.table.specs.Renewing.{settled_end, settled, Renewing, restart_by};

use changes::change;
use changes::change::RouteMark;
use octets::refusal::Refusal;
use places::geometry::{HEADER, MARK, PLACE};
use places::{header, place, sound};
use routes::Restarted;

// The place that starts at `at` goes, or is kept at `to`, behind those kept before it: one of the router's with this mark. Answers where
// those kept end.
fn settle(table: &mut [u8], at: usize, to: usize, router: &[u8], mark: RouteMark) -> usize
    requires { (to ≤ at) × Readable table.old at }
    ensures value { result ≡ settled_end router.now table.old at to }
    ensures table_after { table.new ≡ settled (mark_number mark) router.now table.old at to }
{
    if !place::is_of(place::nlri_from(table, at), router) {
        change::keep(table, at, to);
        return to + PLACE;
    }
    if table[at + MARK] == RouteMark::Stale as u8 {
        return to;
    }
    change::keep_marked(table, at, to, mark.octet());
    to + PLACE
}

// Every place settled, from the first to the last. Answers where those kept end.
fn pass(table: &mut [u8], count: usize, router: &[u8], mark: RouteMark) -> usize
    requires { (sound_of table.old ≡ true) × (count ≡ count_in table.old) }
    ensures { Renewing (restart_by mark) router.now table.old count result table.new }
{
    let mut to = HEADER;
    for index in 0..count {
        to = settle(table, HEADER + PLACE * index, to, router, mark);
    }
    to
}

// A router's routes marked or swept. Answers how many went.
fn renew(table: &mut [u8], router: &[u8], mark: RouteMark) -> usize
    requires { sound_of table.old ≡ true }
    ensures value { result ≡ gone_of (afi_in table.old) router.now (routes_of table.old) }
    ensures table_after { table.new ≡ image_of (afi_in table.old) (places_in table.old) (renewed (afi_in table.old) (restart_by mark) router.now (routes_of table.old)) }
{
    let afi = header::afi_of(table);
    let count = header::count_of(table);
    let to = pass(table, count, router, mark);
    count - change::close_from(table, afi, to, count)
}

// TABLE, FLOW, then the pass, which leaves this mark. Answers how many went.
fn restart(table: &mut [u8], router: &[u8], mark: RouteMark) -> Result<u32, Refusal>
    ensures { Leaves (restart_of (restart_by mark) table.old router.now) (restarted_by result) table.new }
{
    if !sound::is_sound(table) {
        return Err(Refusal::Table);
    }
    if !nlri::is_originator_size(router.len()) {
        return Err(Refusal::Flow);
    }
    Ok(renew(table, router, mark) as u32)
}

// Marks a router's routes stale; those already marked go. A refusal leaves every octet as it was.
pub fn mark(table: &mut [u8], router: &[u8]) -> Restarted
    ensures { Leaves (mark_of table.old router.now) result table.new }
{
    Restarted::from(restart(table, router, RouteMark::Stale))
}

// Takes out what is still marked of a router's routes. A refusal leaves every octet as it was.
pub fn sweep(table: &mut [u8], router: &[u8]) -> Restarted
    ensures { Leaves (sweep_of table.old router.now) result table.new }
{
    Restarted::from(restart(table, router, RouteMark::Fresh))
}
