// The call that plans: a (C-*,C-*) route with the commonest attribute, and a (C-S,C-G) route for each different flow that wants another.
ghost use Rattle.std.specs.Prelude.{◌≡◌, ◌≤◌, length};
ghost use Rattle.octets.specs.Outputs.{Put, Leaves};
ghost use Rattle.plan.specs.Flows.{vrf_of};
ghost use Rattle.plan.specs.Commonest.{commonest};
ghost use Rattle.plan.specs.Calls.{plan_of};
ghost use Rattle.plan.specs.Inner.{vrf_in, planned_in, stands_out, VrfSized, FlowSized, AllSized, own_place, own_places, all_places, RoomFor};

use crate::flows::{Flow, Flows};
use crate::vrf::Vrf;
use crate::{Planned, commonest, refusals, writing};
use octets::number::DONE;
use octets::refusal::Refusal;
use places::geometry::PLACE;

impl From<Result<u32, Refusal>> for Planned {
    ghost from_gives = { λ routes planned. planned ≡ planned_in routes };

    fn from(routes: Result<u32, Refusal>) -> Planned {
        match routes {
            Ok(routes) => Planned {
                number: DONE,
                routes,
            },
            Err(refusal) => Planned {
                number: refusal.number(),
                routes: 0,
            },
        }
    }
}

// A flow has a place of its own: it wants another attribute than the commonest, and is not listed again behind.
fn stands_out(commonest: &[u8], flow: &Flow<'_>, behind: &Flows<'_>) -> bool
    ensures { result ≡ stands_out commonest.now flow.now behind.now }
{
    !flow.wants(commonest) && !behind.again().have(flow)
}

// Its place from `at` on, where it has one. Where the next one starts.
fn put_own(
    vrf: &Vrf<'_>,
    commonest: &[u8],
    flow: &Flow<'_>,
    behind: &Flows<'_>,
    output: &mut [u8],
    at: usize,
) -> usize
    requires sized { VrfSized vrf.now.distinguisher.now vrf.now.originator.now × FlowSized flow.now }
    requires room { RoomFor at (own_place vrf.now.distinguisher.now vrf.now.originator.now commonest.now flow.now behind.now) output.old }
    ensures { Put at (own_place vrf.now.distinguisher.now vrf.now.originator.now commonest.now flow.now behind.now) output.old result output.new }
{
    if !stands_out(commonest, flow, behind) {
        return at;
    }
    writing::put_place(vrf, flow.source(), flow.group(), flow.wanted(), output, at)
}

// The places of all flows that have one, from `start` on. Where they end.
fn put_all_own(
    vrf: &Vrf<'_>,
    commonest: &[u8],
    flows: &Flows<'_>,
    output: &mut [u8],
    start: usize,
) -> usize
    requires sized { VrfSized vrf.now.distinguisher.now vrf.now.originator.now × AllSized flows.now }
    requires room { RoomFor start (own_places vrf.now.distinguisher.now vrf.now.originator.now commonest.now flows.now) output.old }
    ensures { Put start (own_places vrf.now.distinguisher.now vrf.now.originator.now commonest.now flows.now) output.old result output.new }
{
    let mut end = start;
    let mut rest = flows.again();
    while let Some(flow) = rest.next() {
        end = put_own(vrf, commonest, &flow, &rest, output, end);
    }
    end
}

// The place of the wildcards, and those of the flows that have one. Where they end.
fn put_all(vrf: &Vrf<'_>, flows: &Flows<'_>, output: &mut [u8]) -> usize
    requires few { length flows.now ≤ 64 }
    requires sized { VrfSized vrf.now.distinguisher.now vrf.now.originator.now × AllSized flows.now }
    requires room { RoomFor 0 (all_places vrf.now.distinguisher.now vrf.now.originator.now (commonest flows.now) flows.now) output.old }
    ensures { Put 0 (all_places vrf.now.distinguisher.now vrf.now.originator.now (commonest flows.now) flows.now) output.old result output.new }
{
    let wanted = commonest::commonest(flows);
    let start = writing::put_place(vrf, &[], &[], wanted, output, 0);
    put_all_own(vrf, wanted, flows, output, start)
}

// The proposal for flows that are lent, at the front of the output. How many routes it has.
fn propose(vrf: &Vrf<'_>, flows: &[u8], output: &mut [u8]) -> Result<u32, Refusal>
    ensures { Leaves (plan_of vrf.now.afi (vrf_in vrf.now) flows.now output.old) (planned_in result) output.new }
{
    let count = lists::count_of(flows);
    let flows = refusals::read_flows(vrf, flows, true)?;
    if output.len() < PLACE * count {
        return Err(Refusal::Space);
    }
    if count == 0 {
        return Ok(0);
    }
    let end = put_all(vrf, &flows, output);
    Ok((end / PLACE) as u32)
}

// Proposes routes for flows as table places at the front of the output, which the judge accepts. FAMILY, RANGE, SHORT, LONG, SHORT, FLOW,
// attribute reading, LABEL, TUNNEL, CONFLICT; SPACE for an output under 128 octets for each flow as it is listed.
pub fn plan(
    afi: u16,
    prefixes: &[u8],
    originator: &[u8],
    distinguisher: &[u8],
    flows: &[u8],
    output: &mut [u8],
) -> Planned
    ensures { Leaves (plan_of afi (vrf_of prefixes.now originator.now distinguisher.now) flows.now output.old) result output.new }
{
    let vrf = Vrf {
        afi,
        prefixes,
        originator,
        distinguisher,
    };
    Planned::from(propose(&vrf, flows, output))
}
