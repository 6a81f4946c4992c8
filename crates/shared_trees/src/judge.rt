// The refusals of a match for a shared tree between TABLE and SPACE, in their order.
ghost use Rattle.std.specs.Prelude.{◌≡◌, true, ◌*◌};
ghost use Rattle.octets.specs.Outcome.{number_of};
ghost use Rattle.octets.specs.Refusals.{result_number};
ghost use Rattle.lists.specs.LentLists.{whole_list, list_items};
ghost use Rattle.nlri.specs.Groups.{class_outcome};
ghost use Rattle.routes.specs.SharedTree.{originator_sized, state_sized, read_source_active, source_active_fault, judged_tree};
ghost use Rattle.shared_trees.specs.declared.TreeFacts.{TreeFacts};
ghost use Rattle.shared_trees.specs.Tree.{tree_of};
ghost use Rattle.shared_trees.specs.Told.{lists_fault, tree_addresses_sized, whole_fault, is_early};

use crate::FIELDS;
use lists::item::Item;
use nlri::{GroupClass, RouteType};
use octets::refusal::Refusal;

// The most items of either list.
const MOST_ITEMS: usize = 256;

// LONG for a count over the limit in either list, SHORT for either that ends before its items do.
#[tactic(auto, using(octets::proofs::Tests::refusals, crate::proofs::Sized::count_over, crate::proofs::Sized::count_within), unfolding(crate::specs::Told::lists_fault))]
fn check_lists(source_actives: &[u8], states: &[u8]) -> Result<(), Refusal>
    ensures { result_number result ≡ lists_fault source_actives.now states.now }
{
    if MOST_ITEMS < lists::count_of(source_actives) {
        return Err(Refusal::Long);
    }
    if MOST_ITEMS < lists::count_of(states) {
        return Err(Refusal::Long);
    }
    if !lists::is_whole(source_actives, FIELDS) {
        return Err(Refusal::Short);
    }
    if !lists::is_whole(states, FIELDS) {
        return Err(Refusal::Short);
    }
    Ok(())
}

// A Source Active route comes with an originator of 4 or 16 octets.
fn is_originator_sized(source_active: &Item<'_, FIELDS>) -> bool
    ensures { result ≡ originator_sized source_active.now }
{
    nlri::is_originator_size(source_active.field(0).len())
}

// Source and group of a state have so many octets.
fn is_state_sized(state: &Item<'_, FIELDS>, size: usize) -> bool
    ensures { result ≡ state_sized (8 * size) state.now }
{
    state.field(0).len() == size && state.field(1).len() == size
}

// The addresses but for the group asked: 4 or 16 octets of the PE and of every originator, `size` octets in every state.
fn are_addresses_sized(size: usize, router: &[u8], source_actives: &[u8], states: &[u8]) -> bool
    requires { (whole_list 2 source_actives.now ≡ true) × (whole_list 2 states.now ≡ true) }
    ensures { result ≡ tree_addresses_sized (8 * size) router.now source_actives.now states.now }
{
    if !nlri::is_originator_size(router.len()) {
        return false;
    }
    let mut source_actives = lists::items_of::<FIELDS>(source_actives);
    if !source_actives.all(|item| is_originator_sized(&item)) {
        return false;
    }
    let mut states = lists::items_of::<FIELDS>(states);
    states.all(|item| is_state_sized(&item, size))
}

// The NLRI of an item is that of a Source Active route.
fn check_source_active(afi: u16, item: &Item<'_, FIELDS>) -> Result<(), Refusal>
    ensures { result_number result ≡ number_of (read_source_active afi item.now) }
{
    nlri::check_of_type(afi, RouteType::SOURCE_ACTIVE, item.field(1))
}

// That of each is; the first of them that is refused decides.
#[tactic(auto, using(lists::proofs::Along::along), unfolding(routes::specs::SharedTree::source_active_fault))]
fn check_source_actives(afi: u16, list: &[u8]) -> Result<(), Refusal>
    requires { whole_list 2 list.now ≡ true }
    ensures { result_number result ≡ source_active_fault afi (list_items 2 list.now) }
{
    for item in lists::items_of::<FIELDS>(list) {
        check_source_active(afi, &item)?;
    }
    Ok(())
}

// Both lists are whole: FLOW, then each Source Active route in turn.
fn check_whole(
    afi: u16,
    size: usize,
    router: &[u8],
    source_actives: &[u8],
    states: &[u8],
) -> Result<(), Refusal>
    requires { (whole_list 2 source_actives.now ≡ true) × (whole_list 2 states.now ≡ true) }
    ensures { result_number result ≡ whole_fault afi (8 * size) router.now source_actives.now states.now }
{
    if !are_addresses_sized(size, router, source_actives, states) {
        return Err(Refusal::Flow);
    }
    check_source_actives(afi, source_actives)
}

// The refusal of a group's class stands before the lists': FLOW waits for them.
fn is_early(class: Result<GroupClass, Refusal>) -> bool
    ensures { result ≡ is_early (result_number class) }
{
    match class {
        Ok(_) => false,
        Err(refusal) => refusal != Refusal::Flow,
    }
}

// The class of the group asked, or the first refusal: FAMILY, RANGE, SHORT, LONG, SHORT, FLOW, then each Source Active route in turn. A group
// that has a class is of the family's size.
pub fn tree_class(
    afi: u16,
    prefixes: &[u8],
    router: &[u8],
    group: &[u8],
    source_actives: &[u8],
    states: &[u8],
) -> Result<GroupClass, Refusal>
    ensures { (facts : TreeFacts) → class_outcome result ≡ judged_tree afi (tree_of prefixes.now router.now group.now facts source_actives.now states.now) }
{
    let class = groups::class_by_prefixes(afi, prefixes, group);
    if is_early(class) {
        return class;
    }
    check_lists(source_actives, states)?;
    let class = class?;
    check_whole(afi, group.len(), router, source_actives, states)?;
    Ok(class)
}
