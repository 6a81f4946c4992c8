// The key of a Leaf, judged before it is written.
ghost use Rattle.std.specs.Prelude.{◌≡◌, true};
ghost use Rattle.nlri.specs.Writing.{is_key};
ghost use Rattle.nlri.specs.Inner.{with_key};

use nlri::{AddressKind, HEADER, RouteType, mldp};

// Octets that are exactly one key of a Leaf.
fn is_leaf_key(kind: AddressKind, key: &[u8]) -> bool
    ensures { result ≡ is_key kind.bits 4 key.now }
{
    match nlri::read_key(kind, key) {
        Ok(header) => HEADER + header.length == key.len(),
        Err(_) => false,
    }
}

// Octets that are exactly one key of a 0x44. Its body is judged by a call of its own, so that this judge, with two callers, is compiled into
// neither (docs/DECISIONS.md, "Speed").
fn is_mldp_key(kind: AddressKind, key: &[u8]) -> bool
    ensures { result ≡ is_key kind.bits 68 key.now }
{
    let Ok(header) = nlri::read_header(key) else {
        return false;
    };
    if header.route_type != RouteType::MLDP_S_PMSI {
        return false;
    }
    let body = octets::parts::between(key, HEADER, header.length);
    match mldp::check_body(kind, header.route_type, body) {
        Ok(()) => HEADER + header.length == key.len(),
        Err(_) => false,
    }
}

// Octets that are exactly one key of a type that has one: of a Leaf an NLRI of type 1, 2 or 3, of a 0x44 one of type 0x43.
pub(crate) fn is_key(kind: AddressKind, route_type: usize, key: &[u8]) -> bool
    requires { with_key route_type ≡ true }
    ensures { result ≡ is_key kind.bits route_type key.now }
{
    if route_type == RouteType::LEAF {
        return is_leaf_key(kind, key);
    }
    is_mldp_key(kind, key)
}
