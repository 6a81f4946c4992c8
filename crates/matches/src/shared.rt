// The call that finds the route that a shared tree (C-*,C-G) takes from the PE asked (RFC 6625, section 3.2.2).
ghost use Rattle.std.specs.Prelude.{◌≡◌, ℕ, List, length};
ghost use Rattle.octets.specs.Numbers.{DONE};
ghost use Rattle.nlri.specs.Groups.{class_number};
ghost use Rattle.lists.specs.LentLists.{list_items};
ghost use Rattle.routes.specs.Answers.{matched_told};
ghost use Rattle.routes.specs.SharedTree.{source_active_fault, tree_open};
ghost use Rattle.routes.specs.Asked.{of_shared_tree};
ghost use Rattle.routes.specs.Calls.{match_of};
ghost use Rattle.shared_trees.specs.Tree.{tree_of};
ghost use Rattle.shared_trees.specs.Told.{ListsJudged};
ghost use Rattle.octets.specs.Outputs.{Leaves};
ghost use Rattle.matches.specs.Scanning.{tree_tiers};

use crate::matching;
use crate::tier::{Sought, Tiers};
use nlri::GroupClass;
use octets::refusal::Refusal;
use places::output::LEAST_OUTPUT;
use places::{header, sound};
use routes::{Matched, MatchedRoute};
use shared_trees::TreeFacts;

// The tiers of a tree that was judged: 3 and 4 where its group is ASM and a condition holds.
fn open_tiers(
    class: GroupClass,
    router: &[u8],
    group: &[u8],
    facts: TreeFacts,
    source_actives: &[u8],
    states: &[u8],
) -> Tiers
    requires { ListsJudged (length group.now) source_actives.now states.now }
    ensures { (afi : ℕ) (prefixes : List ℕ) → source_active_fault afi (list_items 2 source_actives.now) ≡ DONE → result ≡ tree_tiers (tree_open afi (tree_of prefixes router.now group.now facts source_actives.now states.now) (class_number class)) }
{
    let is_open = class == GroupClass::Asm
        && shared_trees::is_eligible(router, group, facts, source_actives, states);
    Tiers::of_tree(is_open)
}

// TABLE, the refusals between it and SPACE, SPACE, then the search. Tiers 1 and 2 are closed, so that the group serves as source.
fn find_shared(
    table: &[u8],
    prefixes: &[u8],
    router: &[u8],
    group: &[u8],
    facts: TreeFacts,
    source_actives: &[u8],
    states: &[u8],
    output: &mut [u8],
) -> Result<Option<MatchedRoute>, Refusal>
    ensures { Leaves (match_of table.now (of_shared_tree (tree_of prefixes.now router.now group.now facts source_actives.now states.now)) output.old) (matched_told result) output.new }
{
    sound::check(table)?;
    let class = shared_trees::tree_class(
        header::afi_of(table),
        prefixes,
        router,
        group,
        source_actives,
        states,
    )?;
    if output.len() < LEAST_OUTPUT {
        return Err(Refusal::Space);
    }
    let sought = Sought {
        router,
        source: group,
        group,
        tiers: open_tiers(class, router, group, facts, source_actives, states),
    };
    Ok(matching::search(table, &sought, output))
}

// Finds the route that a shared tree takes, and writes it at the front of the output: TABLE, RANGE, SHORT, LONG, SHORT, FLOW, each Source
// Active route in turn, SPACE.
pub fn match_shared(
    table: &[u8],
    prefixes: &[u8],
    router: &[u8],
    group: &[u8],
    facts: TreeFacts,
    source_actives: &[u8],
    states: &[u8],
    output: &mut [u8],
) -> Matched
    ensures { Leaves (match_of table.now (of_shared_tree (tree_of prefixes.now router.now group.now facts source_actives.now states.now)) output.old) result output.new }
{
    Matched::from(find_shared(
        table,
        prefixes,
        router,
        group,
        facts,
        source_actives,
        states,
        output,
    ))
}
