// The attribute that most different flows want.
ghost use Rattle.std.specs.Prelude.{◌≡◌, ◌∷◌, ◌≤◌, length};
ghost use Rattle.plan.specs.Flows.{different};
ghost use Rattle.plan.specs.Commonest.{wanting, leading, commonest};

use crate::flows::{Flow, Flows};

// The attribute that leads so far, and how many different flows want it.
#[derive(Clone, Copy)]
pub struct Leader<'a> {
    pub count: usize,
    pub wanted: &'a [u8],
}

// How many different flows want an attribute, each counted where it is listed last.
fn count_wanting(wanted: &[u8], flows: &Flows<'_>) -> usize
    requires { length flows.now ≤ 64 }
    ensures { result ≡ wanting wanted.now (different flows.now) }
{
    let mut count = 0;
    let mut rest = flows.again();
    while let Some(flow) = rest.next() {
        if flow.wants(wanted) && !rest.again().have(&flow) {
            count += 1;
        }
    }
    count
}

// The leader so far, with the next flow. An attribute is counted where it is wanted last.
fn better<'a>(
    leader: Leader<'a>,
    flow: &Flow<'a>,
    behind: &Flows<'_>,
    all: &Flows<'_>,
) -> Leader<'a>
    requires { length all.now ≤ 64 }
    ensures { leading (different all.now) leader.entry.wanted.now leader.entry.count (flow.now ∷ behind.now) ≡ leading (different all.now) result.wanted.now result.count behind.now }
{
    let wanted = flow.wanted();
    if behind.again().want(wanted) {
        return leader;
    }
    let count = count_wanting(wanted, all);
    if leader.count < count {
        return Leader { count, wanted };
    }
    leader
}

// The commonest attribute; no octets where there are no flows.
pub(crate) fn commonest<'a>(flows: &Flows<'a>) -> &'a [u8]
    requires { length flows.now ≤ 64 }
    ensures { result.now ≡ commonest flows.now }
{
    let Some(first) = flows.again().next() else {
        return &[];
    };
    let mut leader = Leader {
        count: 0,
        wanted: first.wanted(),
    };
    let mut rest = flows.again();
    while let Some(flow) = rest.next() {
        leader = better(leader, &flow, &rest, flows);
    }
    leader.wanted
}
