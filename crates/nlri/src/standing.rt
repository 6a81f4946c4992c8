// The fields of an NLRI of type 3 or 5 where they stand: the route distinguisher behind the header, then a source and a group, each behind
// its length octet, in bits; in type 3 the originator is what remains. For the crates above, which have accepted the NLRI: each function has
// a `requires`, and none is exported to C.
ghost use Rattle.std.specs.Prelude.{◌≡◌, ◌+◌, ◌≤◌, length};
ghost use Rattle.nlri.specs.Standing.{source_size, group_end, standing};

use crate::address::RouteDistinguisher;
use crate::header::HEADER;
use octets::parts;

// Where the source's length octet stands.
const SOURCE_LENGTH: usize = HEADER + RouteDistinguisher::OCTETS;

// The route distinguisher.
pub fn distinguisher_in(nlri: &[u8]) -> &[u8]
    requires { group_end nlri.now ≤ length nlri.now }
    ensures { result.now ≡ (standing nlri.now).distinguisher }
{
    parts::between(nlri, HEADER, RouteDistinguisher::OCTETS)
}

// The source; no octets are a wildcard.
pub fn source_in(nlri: &[u8]) -> &[u8]
    requires { group_end nlri.now ≤ length nlri.now }
    ensures { result.now ≡ (standing nlri.now).source }
{
    parts::between(nlri, SOURCE_LENGTH + 1, nlri[SOURCE_LENGTH] as usize / 8)
}

// Where the group's length octet stands, behind the source.
pub fn group_length_at(nlri: &[u8]) -> usize
    requires { group_end nlri.now ≤ length nlri.now }
    ensures { result ≡ 11 + source_size nlri.now }
{
    SOURCE_LENGTH + 1 + nlri[SOURCE_LENGTH] as usize / 8
}

// The group; no octets are a wildcard.
pub fn group_in(nlri: &[u8]) -> &[u8]
    requires { group_end nlri.now ≤ length nlri.now }
    ensures { result.now ≡ (standing nlri.now).group }
{
    let length_at = group_length_at(nlri);
    parts::between(nlri, length_at + 1, nlri[length_at] as usize / 8)
}

// The originator is what remains.
pub fn originator_in(nlri: &[u8]) -> &[u8]
    requires { group_end nlri.now ≤ length nlri.now }
    ensures { result.now ≡ (standing nlri.now).originator }
{
    let length_at = group_length_at(nlri);
    parts::after(nlri, length_at + 1 + nlri[length_at] as usize / 8)
}
