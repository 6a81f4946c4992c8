// Places written, opened and closed in a table's octets.
ghost use Rattle.std.specs.Prelude.{◌≡◌, ◌++◌, ◌+◌, ◌-◌, ◌*◌, ◌/◌, ◌≤◌, ◌<◌, length, take, drop, set};
ghost use Rattle.routes.specs.Table.{header_of};
ghost use Rattle.octets.specs.Octets.{part, placed};
ghost use Rattle.octets.specs.Order.{zeros};
ghost use Rattle.routes.specs.Route.{route};
ghost use Rattle.routes.specs.Place.{place_of};
ghost use Rattle.changes.specs.Changing.{opened, closed, replaced_at, opened_at, added_at, taken_at, mark_number, remarked};

use places::geometry::{HEADER, MARK, PLACE};
use places::{header, place};

// The mark of a route, as its place's last octet has it.
#[derive(Clone, Copy, Debug, PartialEq, Eq)]
pub enum RouteMark {
    Fresh = 0,
    Stale = 1,
}

impl RouteMark {
    // The mark's octet in a place.
    pub fn octet(self) -> u8
        ensures { result ≡ mark_number self }
    {
        self as u8
    }
}

// Every place becomes free; the header's octets stay.
pub fn clear_places(table: &mut [u8])
    requires { 8 ≤ length table.old }
    ensures { table.new ≡ take 8 table.old ++ zeros (length table.old - 8) }
{
    table[HEADER..].fill(0);
}

// Moves all octets up by one place; the last place's octets fall off, and the first place's stay.
fn move_up(tail: &mut [u8])
    requires { 128 ≤ length tail.old }
    ensures { tail.new ≡ take 128 tail.old ++ take (length tail.old - 128) tail.old }
{
    let last = tail.len() - PLACE;
    tail.copy_within(..last, PLACE);
}

// Moves all octets down by one place, with zeros in the last place.
fn close_gap(tail: &mut [u8])
    requires { 128 ≤ length tail.old }
    ensures { tail.new ≡ drop 128 tail.old ++ zeros 128 }
{
    tail.copy_within(PLACE.., 0);
    let last = tail.len() - PLACE;
    tail[last..].fill(0);
}

// The place that starts at `at` written over the one that starts at `to`, which is the same or comes before it.
pub fn keep(table: &mut [u8], at: usize, to: usize)
    requires { (to ≤ at) × (at + 128 ≤ length table.old) }
    ensures { table.new ≡ placed to (part table.old at 128) table.old }
{
    if to == at {
        return;
    }
    table.copy_within(at..at + PLACE, to);
}

// The place that starts at `at` kept at `to`, with this mark.
pub fn keep_marked(table: &mut [u8], at: usize, to: usize, mark: u8)
    requires { (to ≤ at) × (at + 128 ≤ length table.old) }
    ensures { table.new ≡ placed to (remarked mark (part table.old at 128)) table.old }
{
    keep(table, at, to);
    table[to + MARK] = mark;
}

// The places that end at `to` are those taken; those behind them become free.
pub fn close_from(table: &mut [u8], afi: u16, to: usize, count: usize) -> usize
    requires { (afi < 256) × (8 ≤ to) × (to ≤ 8 + 128 * count) × (8 + 128 * count ≤ length table.old) × (count ≤ 500) }
    ensures value { result ≡ (to - 8) / 128 }
    ensures table_after { table.new ≡ header_of afi result ++ drop 8 (take to table.old ++ (zeros (8 + 128 * count - to) ++ drop (8 + 128 * count) table.old)) }
{
    table[to..HEADER + PLACE * count].fill(0);
    let kept = (to - HEADER) / PLACE;
    header::write_header(afi, kept, table);
    kept
}

// A route's place written over that of an index.
pub fn replace(table: &mut [u8], index: usize, nlri: &[u8], attribute: &[u8])
    requires index_in_bounds { 8 + 128 * index + 128 ≤ length table.old }
    requires attribute_len_bound { length nlri.now + length attribute.now ≤ 125 }
    ensures { table.new ≡ replaced_at index (place_of (route nlri.now attribute.now)) table.old }
{
    let start = HEADER + PLACE * index;
    place::write_place(&mut table[start..start + PLACE], nlri, attribute);
}

// Opens a gap of one place at `start`, up to `end`.
fn open_place(table: &mut [u8], start: usize, end: usize)
    requires { (start + 128 ≤ end) × (end ≤ length table.old) }
    ensures { table.new ≡ opened start end table.old }
{
    move_up(&mut table[start..end]);
}

// Closes the place at `start`, up to `end`.
fn close_place(table: &mut [u8], start: usize, end: usize)
    requires { (start + 128 ≤ end) × (end ≤ length table.old) }
    ensures { table.new ≡ closed start end table.old }
{
    close_gap(&mut table[start..end]);
}

// A gap of one place opened at an index, before the other places from there on, and the count one more.
fn open_at(table: &mut [u8], index: usize, count: usize)
    requires { (index ≤ count) × (8 + 128 * (count + 1) ≤ length table.old) }
    ensures { table.new ≡ opened_at index count table.old }
{
    let afi = header::afi_of(table);
    header::write_header(afi, count + 1, table);
    open_place(table, HEADER + PLACE * index, HEADER + PLACE * (count + 1));
}

// A route's place put in at an index, before the other places from there on.
pub fn add(table: &mut [u8], index: usize, count: usize, nlri: &[u8], attribute: &[u8])
    requires index_le_count { (index ≤ count) × (8 + 128 * (count + 1) ≤ length table.old) }
    requires attribute_len_bound { length nlri.now + length attribute.now ≤ 125 }
    ensures { table.new ≡ added_at index count (place_of (route nlri.now attribute.now)) table.old }
{
    open_at(table, index, count);
    replace(table, index, nlri, attribute);
}

// A place put in at an index as it is, before the other places from there on.
pub fn add_place(table: &mut [u8], index: usize, count: usize, place: &[u8])
    requires index_le_count { (index ≤ count) × (8 + 128 * (count + 1) ≤ length table.old) }
    requires place_len { length place.now ≡ 128 }
    ensures { table.new ≡ added_at index count place.now table.old }
{
    open_at(table, index, count);
    octets::parts::place(place, table, HEADER + PLACE * index);
}

// The place of an index taken out.
pub fn remove(table: &mut [u8], index: usize, count: usize)
    requires { (index < count) × (8 + 128 * count ≤ length table.old) }
    ensures { table.new ≡ taken_at index count table.old }
{
    let afi = header::afi_of(table);
    close_place(table, HEADER + PLACE * index, HEADER + PLACE * count);
    header::write_header(afi, count - 1, table);
}
