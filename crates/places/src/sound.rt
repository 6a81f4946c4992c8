// Whether lent memory is a sound table (document 01, "The table memory").
ghost use Rattle.std.specs.Prelude.{◌≡◌, [], ◌+◌, ◌*◌, ◌≤◌, ◌<◌, length, get_or, drop};
ghost use Rattle.octets.specs.Choice.{pick};
ghost use Rattle.octets.specs.Numbers.{DONE, TABLE};
ghost use Rattle.octets.specs.Order.{all_zero};
ghost use Rattle.octets.specs.Refusals.{result_number};
ghost use Rattle.routes.specs.Place.{place_sound};
ghost use Rattle.routes.specs.Table.{table_size, places_sound, sound_of};
ghost use Rattle.places.specs.Passing.{rises_at};

use crate::geometry::{ATTRIBUTE_SIZE, HEADER, MARK, MOST_PLACES, NLRI_SIZE, PLACE, ROUTE};
use crate::{header, judge};
use octets::refusal::Refusal;

// The octets that are compared at once, as one number.
const WORD: usize = 8;

// Those that are tested for zeros with no loop.
const LARGE_BLOCK: usize = 64;

const MIDDLE_BLOCK: usize = 32;

const SMALL_BLOCK: usize = 16;

// A table's size: 8 octets plus a multiple of 128, 0 to 500 places.
#[tactic(auto, using(octets::proofs::Tests::flags), unfolding(routes::specs::Table::table_size))]
pub fn is_table_size(size: usize) -> bool
    ensures { result ≡ table_size size }
{
    HEADER <= size && (size - HEADER) % PLACE == 0 && (size - HEADER) / PLACE <= MOST_PLACES
}

// The octets from `end` on are zeros, of a place without its mark, by two blocks of one size: its last octets and those that follow the
// route. They leave nothing out between them, and may overlap.
fn is_tail_zero_by<const BLOCK: usize>(place: &[u8], end: usize) -> bool
    requires { (length place.now ≡ 127) × (end + BLOCK ≤ 127) × (127 ≤ end + 2 * BLOCK) }
    ensures { result ≡ all_zero (drop end place.now) }
{
    octets::order::are_each_zero(
        octets::parts::between(place, MARK - BLOCK, BLOCK),
        octets::parts::between(place, end, BLOCK),
    )
}

// The octets from `end` on are zeros, of a place without its mark, by the largest blocks of a fixed size that fit behind the route. The
// hint puts it where its caller stands, as that of its caller does.
#[inline(always)]
fn is_tail_zero(place: &[u8], end: usize) -> bool
    requires { (length place.now ≡ 127) × (end ≤ 127) }
    ensures { result ≡ all_zero (drop end place.now) }
{
    if end <= MARK - LARGE_BLOCK {
        return is_tail_zero_by::<LARGE_BLOCK>(place, end);
    }
    if end <= MARK - MIDDLE_BLOCK {
        return is_tail_zero_by::<MIDDLE_BLOCK>(place, end);
    }
    if end <= MARK - SMALL_BLOCK {
        return is_tail_zero_by::<SMALL_BLOCK>(place, end);
    }
    octets::order::is_zero(octets::parts::after(place, end))
}

// A place holds a route that install would accept, then zeros, and 0 or 1 as its mark. Nothing is copied out of it. The attribute's two
// judges are called one by one: each is small enough that the compiler puts it into the loop over the places, and the hint puts
// this function there, though a place is judged alone too (DECISIONS, "Who judges a place").
#[inline(always)]
pub(crate) fn is_place_sound(afi: u16, place: &[u8]) -> bool
    requires { length place.now ≡ 128 }
    ensures { result ≡ place_sound afi place.now }
{
    let nlri_size = place[NLRI_SIZE] as usize;
    let attribute_size = place[ATTRIBUTE_SIZE] as usize;
    let end = ROUTE + (nlri_size + attribute_size);
    if MARK < end {
        return false;
    }
    if 1 < place[MARK] {
        return false;
    }
    if !nlri::is_s_pmsi(afi, octets::parts::between(place, ROUTE, nlri_size)) {
        return false;
    }
    let attribute = octets::parts::between(place, ROUTE + nlri_size, attribute_size);
    if tunnel::check(attribute).is_err() {
        return false;
    }
    if judge::check_label(attribute).is_err() {
        return false;
    }
    is_tail_zero(octets::parts::between(place, 0, MARK), end)
}

// The NLRI of the sound place from `at` on comes after that of the place before it, which is sound too. The one before is looked at
// as far as this one goes: where their sizes differ, so do their Length octets. The first place has none before it.
fn follows(table: &[u8], at: usize) -> bool
    requires { (at + 128 ≤ length table.now) × (8 ≤ get_or table.now at 0) × (get_or table.now at 0 ≤ 126) }
    ensures { result ≡ rises_at at table.now }
{
    if at < PLACE {
        return true;
    }
    let size = table[at] as usize;
    octets::order::rises(
        octets::parts::between(table, at - PLACE + ROUTE, size),
        octets::parts::between(table, at + ROUTE, size),
    )
}

// The octets from `at` on are zeros. The first eight are tested apart: as the header has eight, the blocks that are tested at once
// then lie as the memory is aligned.
fn is_rest_zero(table: &[u8], at: usize) -> bool
    requires { at ≤ length table.now }
    ensures { result ≡ all_zero (drop at table.now) }
{
    if table.len() - at < WORD {
        return octets::order::is_zero(octets::parts::after(table, at));
    }
    octets::order::is_zero(octets::parts::after(table, at + WORD))
        && octets::wide::eight_low_first(table, at) == 0
}

// The first `count` places are sound, their NLRIs strictly increase, and everything after them is zero.
fn are_places_sound(afi: u16, count: usize, table: &[u8]) -> bool
    requires { 8 + 128 * count ≤ length table.now }
    ensures { result ≡ places_sound afi [] count (drop 8 table.now) }
{
    let end = HEADER + PLACE * count;
    let mut at = HEADER;
    while at < end {
        if !is_place_sound(afi, octets::parts::between(table, at, PLACE)) {
            return false;
        }
        if !follows(table, at) {
            return false;
        }
        at += PLACE;
    }
    is_rest_zero(table, at)
}

// Sound: the size; a good header; count not over the places; the places.
pub fn is_sound(table: &[u8]) -> bool
    ensures { result ≡ sound_of table.now }
{
    if !is_table_size(table.len()) {
        return false;
    }
    if !header::is_header_sound(table) {
        return false;
    }
    let count = header::count_of(table);
    if header::places_of(table) < count {
        return false;
    }
    are_places_sound(header::afi_of(table), count, table)
}

// TABLE, of memory that is no sound table.
#[tactic(auto, using(octets::proofs::Tests::flags))]
pub fn check(table: &[u8]) -> Result<(), Refusal>
    ensures { result_number result ≡ pick (sound_of table.now) DONE TABLE }
{
    if !is_sound(table) {
        return Err(Refusal::Table);
    }
    Ok(())
}
