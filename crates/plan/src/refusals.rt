// The refusals of both calls, in their order: each over all flows before the next.
ghost use Rattle.std.specs.Prelude.{◌≡◌, ℕ};
ghost use Rattle.std.specs.Fn.{FnReturnsAt};
ghost use Rattle.octets.specs.Refusals.{result_number, outcome_in};
ghost use Rattle.plan.specs.Flows.{ListedFlow};
ghost use Rattle.plan.specs.Refusing.{vrf_fault, flow_fault, attribute_fault, label_fault, type_fault, first_flow_fault, flows_fault, read_flows};
ghost use Rattle.plan.specs.Inner.{vrf_in, Judges, conflict_fault};

use crate::FIELDS;
use crate::flows::{Flow, Flows};
use crate::vrf::Vrf;
use nlri::RouteDistinguisher;
use octets::refusal::Refusal;
use tunnel::TunnelType;

// The most flows.
const MOST_FLOWS: usize = 64;

// FLOW by the sizes of originator and RD.
fn check_vrf(vrf: &Vrf<'_>) -> Result<(), Refusal>
    ensures { result_number result ≡ vrf_fault (vrf_in vrf.now) }
{
    if !nlri::is_originator_size(vrf.originator.len()) {
        return Err(Refusal::Flow);
    }
    if vrf.distinguisher.len() != RouteDistinguisher::OCTETS {
        return Err(Refusal::Flow);
    }
    Ok(())
}

// FLOW for a flow that a match does not take.
fn check_flow(vrf: &Vrf<'_>, flow: &Flow<'_>) -> Result<(), Refusal>
    ensures { result_number result ≡ flow_fault vrf.now.afi (vrf_in vrf.now) flow.now }
{
    let group = flow.group();
    groups::group_class(vrf.afi, vrf.prefixes, group)?;
    matches::flow::check_sizes(vrf.originator.len(), flow.source().len(), group.len())
}

// Attribute reading.
#[tactic(auto, unfolding(crate::specs::Refusing::attribute_fault))]
fn check_attribute(flow: &Flow<'_>) -> Result<(), Refusal>
    ensures { result_number result ≡ attribute_fault flow.now }
{
    tunnel::check(flow.wanted())
}

// LABEL after it.
#[tactic(auto, unfolding(crate::specs::Refusing::label_fault))]
fn check_label(flow: &Flow<'_>) -> Result<(), Refusal>
    ensures { result_number result ≡ label_fault flow.now }
{
    places::judge::check_attribute(flow.wanted())
}

// TUNNEL for a wanted type 0 after it.
fn check_type(flow: &Flow<'_>) -> Result<(), Refusal>
    ensures { result_number result ≡ type_fault flow.now }
{
    let wanted = flow.wanted();
    tunnel::check(wanted)?;
    if wanted[1] == TunnelType::NoTunnel as u8 {
        return Err(Refusal::Tunnel);
    }
    Ok(())
}

// The first refusal of a flow by one of these tests.
fn check_each<T: Fn(&Flow<'_>) -> Result<(), Refusal>>(
    flows: &Flows<'_>,
    test: T,
) -> Result<(), Refusal>
    requires { T.IsAlwaysCallable test }
    ensures { (fault : ListedFlow → ℕ) → Judges (FnReturnsAt T.Fn test) fault → result_number result ≡ first_flow_fault fault flows.now }
{
    for flow in flows.again() {
        test(&flow)?;
    }
    Ok(())
}

// CONFLICT for a flow that is listed with two attributes.
fn check_conflicts(flows: &Flows<'_>) -> Result<(), Refusal>
    ensures { result_number result ≡ conflict_fault flows.now }
{
    let mut rest = flows.again();
    while let Some(flow) = rest.next() {
        if rest.again().clash_with(&flow) {
            return Err(Refusal::Conflict);
        }
    }
    Ok(())
}

// FLOW; attribute reading, LABEL, TUNNEL and CONFLICT of the wanted attributes.
fn check_flows(vrf: &Vrf<'_>, flows: &Flows<'_>) -> Result<(), Refusal>
    ensures { result_number result ≡ flows_fault vrf.now.afi (vrf_in vrf.now) flows.now }
{
    check_vrf(vrf)?;
    check_each(flows, |flow| check_flow(vrf, flow))?;
    check_each(flows, check_attribute)?;
    check_each(flows, check_label)?;
    check_each(flows, check_type)?;
    check_conflicts(flows)
}

// The flows that are lent. FAMILY, RANGE and SHORT of the prefixes; LONG for more than 64 flows, or for what is over its limit beside them;
// SHORT; then the flows.
pub(crate) fn read_flows<'a>(
    vrf: &Vrf<'_>,
    list: &'a [u8],
    is_within: bool,
) -> Result<Flows<'a>, Refusal>
    ensures { outcome_in result ≡ read_flows vrf.now.afi (vrf_in vrf.now) list.now is_within }
{
    groups::check_prefixes(vrf.afi, vrf.prefixes)?;
    if MOST_FLOWS < lists::count_of(list) {
        return Err(Refusal::Long);
    }
    if !is_within {
        return Err(Refusal::Long);
    }
    if !lists::is_whole(list, FIELDS) {
        return Err(Refusal::Short);
    }
    let flows = Flows::of(list);
    check_flows(vrf, &flows)?;
    Ok(flows)
}
