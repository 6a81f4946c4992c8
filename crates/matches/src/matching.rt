// The call that finds the route that a customer flow takes (document 01, "Which route a flow takes").
ghost use Rattle.std.specs.Prelude.{◌≡◌, true, ◌≤◌, ◌<◌, length};
ghost use Rattle.routes.specs.Table.{afi_in, routes_of, sound_of};
ghost use Rattle.routes.specs.Matching.{match_in};
ghost use Rattle.routes.specs.Answers.{matched_by, matched_told};
ghost use Rattle.routes.specs.Calls.{match_of};
ghost use Rattle.routes.specs.Query.{flow_of};
ghost use Rattle.routes.specs.Asked.{of_flow};
ghost use Rattle.octets.specs.Outcome.{given};
ghost use Rattle.octets.specs.Outputs.{Leaves};
ghost use Rattle.matches.specs.Scanning.{flow_in, sought_in, open_query, Asked};

use crate::flow::Flow;
use crate::tier::{Sought, Tiers};
use crate::{answer, flow};
use octets::parts;
use octets::refusal::Refusal;
use places::geometry::HEADER;
use places::output::LEAST_OUTPUT;
use places::{header, sound};
use routes::{Matched, MatchedRoute};

// The search of a sound table, with these tiers open.
pub(crate) fn search(table: &[u8], sought: &Sought<'_>, output: &mut [u8]) -> Option<MatchedRoute>
    requires { (sound_of table.now ≡ true) × (124 ≤ length output.old) × (0 < length sought.now.source.now) × (0 < length sought.now.group.now) × (4 ≤ length sought.now.router.now) }
    ensures { Leaves (matched_by (given (match_in (afi_in table.now) (open_query (sought_in sought.now) sought.now.tiers) (routes_of table.now))) output.old) (matched_told (Ok result)) output.new }
{
    let places = parts::after(table, HEADER);
    let best = sought.best(places, header::count_of(table));
    answer::answer(places, best, output)
}

// TABLE, RANGE, SHORT, FLOW, SPACE, or what the flow's match looks for. The hint puts it into both calls that ask by a flow.
#[inline(always)]
pub(crate) fn ask<'a>(table: &[u8], flow: &Flow<'a>, room: usize) -> Result<Sought<'a>, Refusal>
    ensures { Asked table.now (flow_in flow.now) room result }
{
    sound::check(table)?;
    let class = groups::group_class(header::afi_of(table), flow.prefixes, flow.group)?;
    flow::check_sizes(flow.router.len(), flow.source.len(), flow.group.len())?;
    if room < LEAST_OUTPUT {
        return Err(Refusal::Space);
    }
    Ok(Sought {
        router: flow.router,
        source: flow.source,
        group: flow.group,
        tiers: Tiers::of_class(class as u32),
    })
}

// What is asked, then the search.
fn find(table: &[u8], flow: &Flow<'_>, output: &mut [u8]) -> Result<Option<MatchedRoute>, Refusal>
    ensures { Leaves (match_of table.now (of_flow (flow_in flow.now)) output.old) (matched_told result) output.new }
{
    let sought = ask(table, flow, output.len())?;
    Ok(search(table, &sought, output))
}

// Finds the route that a flow takes, and writes it at the front of the output: TABLE, RANGE, SHORT, FLOW, SPACE.
pub fn match_flow(
    table: &[u8],
    prefixes: &[u8],
    router: &[u8],
    source: &[u8],
    group: &[u8],
    output: &mut [u8],
) -> Matched
    ensures { Leaves (match_of table.now (of_flow (flow_of prefixes.now router.now source.now group.now)) output.old) result output.new }
{
    let flow = Flow {
        prefixes,
        router,
        source,
        group,
    };
    Matched::from(find(table, &flow, output))
}
