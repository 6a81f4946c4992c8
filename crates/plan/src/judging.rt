// The call that judges proposed routes.
ghost use Rattle.std.specs.Prelude.{◌≡◌};
ghost use Rattle.octets.specs.Refusals.{outcome_in};
ghost use Rattle.plan.specs.Flows.{vrf_of};
ghost use Rattle.plan.specs.Calls.{judge_outcome, judged_by, judge_of};
ghost use Rattle.plan.specs.Inner.{vrf_in};

use crate::vrf::Vrf;
use crate::{Judged, proposal, refusals};
use octets::number::DONE;
use octets::refusal::Refusal;

// The most octets of proposed places.
const MOST_OCTETS: usize = 8192;

impl From<Result<bool, Refusal>> for Judged {
    ghost from_gives = { λ is_accepted judged. judged ≡ judged_by (outcome_in is_accepted) };

    #[tactic(auto, unfolding(crate::specs::Calls::judged_by, octets::specs::Outcome::on_outcome, octets::specs::Choice::pick))]
    fn from(is_accepted: Result<bool, Refusal>) -> Judged {
        match is_accepted {
            Ok(true) => Judged {
                number: DONE,
                accepted: 1,
            },
            Ok(false) => Judged {
                number: DONE,
                accepted: 0,
            },
            Err(refusal) => Judged {
                number: refusal.number(),
                accepted: 0,
            },
        }
    }
}

// Whether proposed places are accepted, for flows that are lent.
fn is_accepted(vrf: &Vrf<'_>, flows: &[u8], places: &[u8]) -> Result<bool, Refusal>
    ensures { outcome_in result ≡ judge_outcome vrf.now.afi (vrf_in vrf.now) flows.now places.now }
{
    let flows = refusals::read_flows(vrf, flows, places.len() <= MOST_OCTETS)?;
    Ok(proposal::is_accepted(vrf, &flows, places))
}

// Whether routes proposed as table places are accepted: every one has that originator and RD, no NLRI repeats, and each flow's match over
// them alone has its wanted attribute. FAMILY, RANGE, SHORT, LONG, SHORT, FLOW, attribute reading, LABEL, TUNNEL, CONFLICT.
pub fn judge(
    afi: u16,
    prefixes: &[u8],
    originator: &[u8],
    distinguisher: &[u8],
    flows: &[u8],
    places: &[u8],
) -> Judged
    ensures { result ≡ judge_of afi (vrf_of prefixes.now originator.now distinguisher.now) flows.now places.now }
{
    let vrf = Vrf {
        afi,
        prefixes,
        originator,
        distinguisher,
    };
    Judged::from(is_accepted(&vrf, flows, places))
}
