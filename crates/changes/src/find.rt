// Where an NLRI stands, or belongs, in a sound table.
ghost use Rattle.std.specs.Prelude.{◌≡◌, true, ◌+◌, ◌<◌, drop};
ghost use Rattle.routes.specs.Route.{nlri_of};
ghost use Rattle.routes.specs.Table.{count_in, routes_of, sound_of};
ghost use Rattle.places.specs.Readable.{route_at};
ghost use Rattle.changes.specs.Changing.{rank, first_is, Searched};

use places::{header, place};

// The NLRI of the route at an index.
fn nlri_at(table: &[u8], index: usize) -> &[u8]
    requires { (sound_of table.now ≡ true) × (index < count_in table.now) }
    ensures { result.now ≡ nlri_of (route_at index table.now) }
{
    place::nlri_in(place::place_at(table, index))
}

// The number of routes whose NLRI comes before this one: where it stands, or belongs. NLRIs increase, so halving finds it.
pub fn position(table: &[u8], count: usize, nlri: &[u8]) -> usize
    requires { (sound_of table.now ≡ true) × (count ≡ count_in table.now) }
    ensures { result ≡ rank nlri.now (routes_of table.now) }
{
    let mut low = 0;
    let mut high = count;
    while low < high {
        let middle = low + (high - low) / 2;
        if octets::order::comes_before(nlri_at(table, middle), nlri) {
            low = middle + 1;
        } else {
            high = middle;
        }
    }
    low
}

// The same, for NLRIs that mostly come in order: whether this one comes after the last is asked first.
pub fn position_from_last(table: &[u8], count: usize, nlri: &[u8]) -> usize
    requires { (sound_of table.now ≡ true) × (count ≡ count_in table.now) }
    ensures { result ≡ rank nlri.now (routes_of table.now) }
{
    if count == 0 {
        return 0;
    }
    if octets::order::comes_before(nlri_at(table, count - 1), nlri) {
        return count;
    }
    position(table, count, nlri)
}

// Whether the route at an index has this NLRI.
pub fn stands_at(table: &[u8], index: usize, count: usize, nlri: &[u8]) -> bool
    requires { (sound_of table.now ≡ true) × (count ≡ count_in table.now) }
    ensures { result ≡ first_is nlri.now (drop index (routes_of table.now)) }
{
    index < count && octets::order::is_same(nlri, nlri_at(table, index))
}

// What a search answers of the index where an NLRI stands or belongs.
fn answer_at(table: &[u8], index: usize, count: usize, nlri: &[u8]) -> Result<usize, usize>
    requires { (sound_of table.now ≡ true) × (count ≡ count_in table.now) × (index ≡ rank nlri.now (routes_of table.now)) }
    ensures { Searched nlri.now (routes_of table.now) result }
{
    if stands_at(table, index, count, nlri) {
        return Ok(index);
    }
    Err(index)
}

// The index of the route with this NLRI, or else where such a route belongs, as std's `binary_search` answers. In a table of few places the
// call itself would cost more than the search.
#[inline(always)]
pub fn search(table: &[u8], nlri: &[u8]) -> Result<usize, usize>
    requires { sound_of table.now ≡ true }
    ensures { Searched nlri.now (routes_of table.now) result }
{
    let count = header::count_of(table);
    answer_at(table, position(table, count, nlri), count, nlri)
}

// The same, for NLRIs that mostly come in order.
pub fn search_from_last(table: &[u8], nlri: &[u8]) -> Result<usize, usize>
    requires { sound_of table.now ≡ true }
    ensures { Searched nlri.now (routes_of table.now) result }
{
    let count = header::count_of(table);
    answer_at(table, position_from_last(table, count, nlri), count, nlri)
}
