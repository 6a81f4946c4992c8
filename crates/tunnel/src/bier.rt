// The identifier of a BIER tunnel (RFC 8556, section 2).
#![tactic(auto, unfolding(crate::specs::Bier::bier_in))]

ghost use Rattle.std.specs.Prelude.{◌≡◌, ◌≤◌, length};
ghost use Rattle.tunnel.specs.Bier.{bier_in};

// The sub-domain, and the BFR-id in it; a prefix stands behind them.
#[derive(Clone, Copy)]
pub struct BierIdentifier {
    pub sub_domain: u32,
    pub bfr_id: u32,
}

// Sub-domain and BFR-id, taken from where they stand.
pub fn bier_in(identifier: &[u8]) -> BierIdentifier
    requires { 3 ≤ length identifier.now }
    ensures { result ≡ bier_in identifier.now }
{
    BierIdentifier {
        sub_domain: identifier[0] as u32,
        bfr_id: octets::wide::two(identifier, 1),
    }
}
