// Whether one of the conditions of RFC 6625, section 3.2.2, makes routes eligible, of a shared tree that was judged.
ghost use Rattle.std.specs.Prelude.{◌≡◌, List, true, ℕ, ◌<◌, length, drop};
ghost use Rattle.octets.specs.Numbers.{DONE};
ghost use Rattle.lists.specs.LentLists.{front_item, whole_item, list_items, some_item};
ghost use Rattle.nlri.specs.Standing.{standing};
ghost use Rattle.routes.specs.SharedTree.{source_active_fault, is_state, condition_holds};
ghost use Rattle.shared_trees.specs.Tree.{tree_of};
ghost use Rattle.shared_trees.specs.Told.{FieldsWithin, fields_within, Ending, start_of_last, StatesLeft, Passed, StatesSized, ListsJudged, without_state, without_state_at};

use crate::{FIELDS, TreeFacts};
use lists::FIRST;
use lists::item::Item;
use nlri::standing;
use octets::{order, wide};

// The octets at a source's end that are compared first.
const ENDING: usize = 4;

// The last four octets of a Source Active NLRI's source, of those that have as many.
fn ending_in(nlri: &[u8]) -> u32
    requires { FieldsWithin nlri.now }
    ensures { Ending (standing nlri.now).source result }
{
    wide::four_low_first(nlri, standing::group_length_at(nlri) - ENDING)
}

// A state has this source and this group.
#[tactic(auto, using(lists::proofs::Going::going), unfolding(routes::specs::SharedTree::is_state))]
fn is_state(list: &[u8], at: usize, source: &[u8], group: &[u8]) -> bool
    requires { whole_item 2 (drop at list.now) ≡ true }
    ensures { result ≡ is_state source.now group.now (front_item 2 (drop at list.now)) }
{
    if !order::is_same(lists::item_field(list, at, 0), source) {
        return false;
    }
    order::is_same(lists::item_field(list, at, 1), group)
}

// Where the last `left` of `count` states start: the source and the group of each have `size` octets.
#[tactic(auto, using(crate::proofs::Endings::left_within), unfolding(crate::specs::Told::start_of_last))]
fn start_of_last(states: &[u8], count: usize, left: usize, size: usize) -> usize
    requires { StatesLeft size count left states.now × (0 < left) }
    ensures { result ≡ start_of_last size count left }
{
    FIRST + (count - left) * (4 + 2 * size)
}

// Of the last states, how many are left from the first one on whose source has this ending. The ending tells most states apart, in
// a loop that compares nothing else.
#[tactic(auto, using(crate::proofs::Endings::left_within))]
fn left_from_ending(states: &[u8], count: usize, left: usize, size: usize, ending: u32) -> usize
    requires { StatesLeft size count left states.now × (0 < left) }
    ensures { Passed size count ending left result states.now }
{
    let mut at = start_of_last(states, count, left, size);
    let mut left = left;
    while 0 < left {
        if wide::four_low_first(states, at + 2 + size - ENDING) == ending {
            return left;
        }
        at += 4 + 2 * size;
        left -= 1;
    }
    left
}

// Some state has this source and this group. Where the last states start is counted anew in each turn: were it carried along, the
// compiler would make one loop of both, whose numbers the registers do not hold.
fn has_state(states: &[u8], size: usize, source: &[u8], ending: u32, group: &[u8]) -> bool
    requires { StatesSized size states.now × Ending source.now ending }
    ensures { result ≡ some_item (is_state source.now group.now) (list_items 2 states.now) }
{
    let count = lists::count_of(states);
    let mut left = count;
    while 0 < left {
        left = left_from_ending(states, count, left, size, ending);
        if left == 0 {
            return false;
        }
        let at = start_of_last(states, count, left, size);
        if is_state(states, at, source, group) {
            return true;
        }
        left -= 1;
    }
    false
}

// A Source Active NLRI is for the group, and no state has its source and group.
fn is_without_state(nlri: &[u8], group: &[u8], states: &[u8]) -> bool
    requires { FieldsWithin nlri.now × StatesSized (length group.now) states.now }
    ensures { result ≡ without_state group.now states.now nlri.now }
{
    if !order::is_same(standing::group_in(nlri), group) {
        return false;
    }
    !has_state(
        states,
        group.len(),
        standing::source_in(nlri),
        ending_in(nlri),
        group,
    )
}

// A Source Active route for the group, originated by the PE, to whose (C-S,C-G) no state corresponds.
fn lacks_state(source_active: &Item<'_, FIELDS>, router: &[u8], group: &[u8], states: &[u8]) -> bool
    requires { (fields_within source_active.now ≡ true) × StatesSized (length group.now) states.now }
    ensures { result ≡ without_state_at router.now group.now states.now source_active.now }
{
    if !order::is_same(source_active.field(0), router) {
        return false;
    }
    is_without_state(source_active.field(1), group, states)
}

// Some Source Active route is one.
#[tactic(auto, using(lists::proofs::Along::along))]
fn has_source(source_actives: &[u8], router: &[u8], group: &[u8], states: &[u8]) -> bool
    requires { ListsJudged (length group.now) source_actives.now states.now }
    ensures { result ≡ some_item (without_state_at router.now group.now states.now) (list_items 2 source_actives.now) }
{
    for item in lists::items_of::<FIELDS>(source_actives) {
        if lacks_state(&item, router, group, states) {
            return true;
        }
    }
    false
}

// One of the conditions holds, for a tree that was judged.
pub fn is_eligible(
    router: &[u8],
    group: &[u8],
    facts: TreeFacts,
    source_actives: &[u8],
    states: &[u8],
) -> bool
    requires { ListsJudged (length group.now) source_actives.now states.now }
    ensures { (afi : ℕ) (prefixes : List ℕ) → source_active_fault afi (list_items 2 source_actives.now) ≡ DONE → result ≡ condition_holds afi (tree_of prefixes router.now group.now facts source_actives.now states.now) }
{
    if facts.upstream != 0 {
        return true;
    }
    if facts.bidirectional != 0 {
        return true;
    }
    if facts.source_active_unused != 0 {
        return true;
    }
    has_source(source_actives, router, group, states)
}
