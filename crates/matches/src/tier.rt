// The tier of a route (document 01, "Which route a flow takes"), by the octets of its NLRI where they stand.
ghost use Rattle.std.specs.Prelude.{◌≡◌, true, false, ◌≤◌, length};
ghost use Rattle.octets.specs.Order.{same};
ghost use Rattle.matches.specs.Scanning.{sought_in, open_tiers, tree_tiers, source_tier, any_source_tier, flow_tier, tier_at};
ghost use Rattle.nlri.specs.Standing.{standing};
ghost use Rattle.places.specs.Readable.{Bounded};

use nlri::{GroupClass, standing};
use octets::{order, wide};
use routes::Tier;

// Which tiers are open; no route is of one that is not.
#[derive(Clone, Copy)]
pub struct Tiers {
    pub exact: bool,
    pub any_group: bool,
    pub any_source: bool,
    pub any: bool,
}

impl Tiers {
    // A flow's tiers, by the class of its group: for any group where it is SSM, for any source where it is ASM.
    pub fn of_class(class: u32) -> Tiers
        ensures { result ≡ open_tiers class }
    {
        Tiers {
            exact: true,
            any_group: class == GroupClass::Ssm as u32,
            any_source: class == GroupClass::Asm as u32,
            any: true,
        }
    }

    // A shared tree's tiers: those of a wildcard source, where its routes are eligible.
    pub fn of_tree(is_eligible: bool) -> Tiers
        ensures { result ≡ tree_tiers is_eligible }
    {
        Tiers {
            exact: false,
            any_group: false,
            any_source: is_eligible,
            any: is_eligible,
        }
    }
}

// What a match looks for: the routes of a router, by source and group, that are of an open tier.
#[derive(Clone, Copy)]
pub struct Sought<'a> {
    pub router: &'a [u8],
    pub source: &'a [u8],
    pub group: &'a [u8],
    pub tiers: Tiers,
}

// The octets at the end that are compared first.
const ENDING: usize = 4;

impl<'a> Sought<'a> {
    // The source is the one wanted: the exact tier, or that of any group.
    #[tactic(auto, using(octets::proofs::Tests::flags), unfolding(crate::specs::Scanning::source_tier, crate::specs::Scanning::wildcard))]
    fn source_tier(&self, route_group: &[u8]) -> Option<Tier>
        ensures { result ≡ source_tier self.now.group.now self.now.tiers route_group.now }
    {
        if order::is_same(route_group, self.group) {
            return self.tiers.exact.then_some(Tier::Exact);
        }
        if !route_group.is_empty() {
            return None;
        }
        self.tiers.any_group.then_some(Tier::AnyGroup)
    }

    // The source is a wildcard: the tier of any source and any group, or that of any source.
    #[tactic(auto, using(octets::proofs::Tests::refusals), unfolding(crate::specs::Scanning::any_source_tier, crate::specs::Scanning::wildcard))]
    fn any_source_tier(&self, route_group: &[u8]) -> Option<Tier>
        ensures { result ≡ any_source_tier self.now.group.now self.now.tiers route_group.now }
    {
        if route_group.is_empty() {
            return self.tiers.any.then_some(Tier::Any);
        }
        if !order::is_same(route_group, self.group) {
            return None;
        }
        self.tiers.any_source.then_some(Tier::AnySource)
    }

    // None where the route meets the condition of no tier.
    fn flow_tier(&self, nlri: &[u8]) -> Option<Tier>
        requires { Bounded nlri.now }
        ensures { result ≡ flow_tier self.now.source.now self.now.group.now self.now.tiers (standing nlri.now) }
    {
        let route_source = standing::source_in(nlri);
        if route_source.is_empty() {
            return self.any_source_tier(standing::group_in(nlri));
        }
        if !order::is_same(route_source, self.source) {
            return None;
        }
        self.source_tier(standing::group_in(nlri))
    }

    // The last four octets are not the router's: this tells most routes of other routers, and needs no field to be found.
    fn ends_otherwise(&self, nlri: &[u8]) -> bool
        requires { Bounded nlri.now × (4 ≤ length self.now.router.now) }
        ensures { result ≡ true → same (standing nlri.now).originator self.now.router.now ≡ false }
    {
        wide::four_low_first(nlri, nlri.len() - ENDING)
            != wide::four_low_first(self.router, self.router.len() - ENDING)
    }

    // The tier of a route of the router asked; none for one of another router, or where no tier's condition is met.
    pub(crate) fn tier_of(&self, nlri: &[u8]) -> Option<Tier>
        requires { Bounded nlri.now × (4 ≤ length self.now.router.now) }
        ensures { result ≡ tier_at (sought_in self.now) self.now.tiers nlri.now }
    {
        if self.ends_otherwise(nlri) {
            return None;
        }
        if !order::is_same(standing::originator_in(nlri), self.router) {
            return None;
        }
        self.flow_tier(nlri)
    }
}
