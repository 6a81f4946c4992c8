// The best route, found in one pass over places, of a table or of a proposal: there is no header before them.
ghost use Rattle.std.specs.Prelude.{◌≡◌, ℕ, ◌*◌, ◌≤◌, ◌<◌, length};
ghost use Rattle.octets.specs.Octets.{part};
ghost use Rattle.octets.specs.Order.{before};
ghost use Rattle.matches.specs.Scanning.{sought_in, ahead_at, better_at, scan_at, Kept};
ghost use Rattle.routes.specs.Place.{route_in};
ghost use Rattle.routes.specs.Matching.{names_tunnel};
ghost use Rattle.nlri.specs.Standing.{standing};
ghost use Rattle.places.specs.Readable.{nlri_at, Readable};

use crate::tier::Sought;
use nlri::standing;
use octets::{order, parts};
use places::geometry::PLACE;
use places::place;
use routes::Tier;
use tunnel::TunnelType;

// The best route so far: its tier, and where its place starts.
#[derive(Clone, Copy)]
pub struct Best {
    pub tier: Tier,
    pub start: usize,
}

// The route in the place that starts there names a tunnel: its type is not "no tunnel information" (RFC 8556, section 4.1).
fn names_tunnel(places: &[u8], at: usize) -> bool
    requires { Readable places.now at }
    ensures { result ≡ names_tunnel (route_in (part places.now at 128)) }
{
    let attribute = place::attribute_in(parts::between(places, at, PLACE));
    attribute[1] != TunnelType::NoTunnel as u8
}

// Route distinguishers are compared as eight octets.
fn is_lower(places: &[u8], at: usize, other: usize) -> bool
    requires { Readable places.now at × Readable places.now other }
    ensures { result ≡ before (standing (nlri_at places.now at)).distinguisher (standing (nlri_at places.now other)).distinguisher }
{
    order::comes_before(
        standing::distinguisher_in(place::nlri_from(places, at)),
        standing::distinguisher_in(place::nlri_from(places, other)),
    )
}

// The lower tier, then the lower route distinguisher.
fn is_ahead(places: &[u8], tier: Tier, at: usize, best: Best) -> bool
    requires { Readable places.now at × Readable places.now best.start }
    ensures { result ≡ ahead_at places.now tier at best }
{
    if tier != best.tier {
        return tier < best.tier;
    }
    is_lower(places, at, best.start)
}

impl<'a> Sought<'a> {
    // The best so far, with the route in one more place. Few routes have a tier: of these alone it is asked whether they name a tunnel.
    fn better(&self, places: &[u8], best: Option<Best>, at: usize) -> Option<Best>
        requires readable { Readable places.now at × Kept (Readable places.now) best }
        requires in_bounds { 4 ≤ length self.now.router.now }
        ensures { result ≡ better_at (sought_in self.now) self.now.tiers places.now best at }
    {
        let Some(tier) = self.tier_of(place::nlri_from(places, at)) else {
            return best;
        };
        if !names_tunnel(places, at) {
            return best;
        }
        if let Some(other) = best {
            if !is_ahead(places, tier, at, other) {
                return best;
            }
        }
        Some(Best { tier, start: at })
    }

    // The best route in the first `count` places, or none.
    pub fn best(&self, places: &[u8], count: usize) -> Option<Best>
        requires by_index { (k : ℕ) → k < count → Readable places.now (128 * k) }
        requires in_bounds { 4 ≤ length self.now.router.now }
        ensures { result ≡ scan_at (sought_in self.now) self.now.tiers places.now count 0 None }
    {
        let mut best = None;
        for index in 0..count {
            best = self.better(places, best, PLACE * index);
        }
        best
    }
}
