// The call that tells, beside match's answer, why each tier was taken or not (request W-204).
ghost use Rattle.std.specs.Prelude.{◌≡◌};
ghost use Rattle.routes.specs.Answers.{tier_number, matched_told};
ghost use Rattle.routes.specs.Query.{flow_of};
ghost use Rattle.routes.specs.Reasons.{reason_number, reason_numbers, reason_of, explain_of, explained_told};
ghost use Rattle.octets.specs.Outputs.{Leaves};
ghost use Rattle.matches.specs.Scanning.{flow_in, reasons_by};

use crate::flow::Flow;
use crate::matching;
use crate::tier::Tiers;
use octets::refusal::Refusal;
use routes::{Explained, Explanation, MatchedRoute, Reason, Reasons, Tier};

// The reason of a tier, by the route that was taken and by whether the group's class lets the tier.
fn reason(route: Option<MatchedRoute>, tier: Tier, is_open: bool) -> Reason
    ensures { reason_number result ≡ reason_of (matched_told (Ok route)).tier (tier_number tier) is_open }
{
    match route {
        Some(taken) if taken.tier == tier => Reason::Taken,
        Some(taken) if taken.tier < tier => Reason::EarlierTierWon,
        _ if is_open => Reason::NoSuchRoute,
        _ => Reason::WrongGroupClass,
    }
}

// The reasons of the four tiers, by those that are open.
fn reasons(route: Option<MatchedRoute>, tiers: Tiers) -> Reasons
    ensures { reason_numbers result ≡ reasons_by (matched_told (Ok route)).tier tiers }
{
    Reasons {
        exact: reason(route, Tier::Exact, tiers.exact),
        any_group: reason(route, Tier::AnyGroup, tiers.any_group),
        any_source: reason(route, Tier::AnySource, tiers.any_source),
        any: reason(route, Tier::Any, tiers.any),
    }
}

// What is asked, then the search, whose tier and the tiers that are open give the reasons.
fn find_reasons(table: &[u8], flow: &Flow<'_>, output: &mut [u8]) -> Result<Explanation, Refusal>
    ensures { Leaves (explain_of table.now (flow_in flow.now) output.old) (explained_told result) output.new }
{
    let sought = matching::ask(table, flow, output.len())?;
    let route = matching::search(table, &sought, output);
    Ok(Explanation {
        route,
        reasons: reasons(route, sought.tiers),
    })
}

// Match's whole answer, and why each tier was taken or not: TABLE, RANGE, SHORT, FLOW, SPACE.
pub fn explain(
    table: &[u8],
    prefixes: &[u8],
    router: &[u8],
    source: &[u8],
    group: &[u8],
    output: &mut [u8],
) -> Explained
    ensures { Leaves (explain_of table.now (flow_of prefixes.now router.now source.now group.now) output.old) result output.new }
{
    let flow = Flow {
        prefixes,
        router,
        source,
        group,
    };
    Explained::from(find_reasons(table, &flow, output))
}
