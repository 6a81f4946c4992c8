// Where the fields of an NLRI lie, as numbers: no octet is copied to read, compare or walk.
ghost use Rattle.std.specs.Prelude.{◌≡◌, ◌≤◌, length, slice_index};
ghost use Rattle.nlri.specs.Layouts.{no_layout};
ghost use Rattle.nlri.specs.Inner.{source_start, fec_start, layout_with, flow_layout, leaf_layout, FlowStands, KeyStands};

use crate::address::RouteDistinguisher;
use crate::header::HEADER;
use crate::route::RouteType;

// Route type, Length, and the size in octets of each field whose size varies: 0 for a wildcard and for a field that the
// type lacks.
#[repr(C)]
#[derive(Clone, Copy)]
pub struct Layout {
    pub route_type: usize,
    pub length: usize,
    pub source: usize,
    pub group: usize,
    pub originator: usize,
    pub key: usize,
    pub fec: usize,
}

impl Layout {
    // No layout: every number 0.
    pub fn none() -> Layout
        ensures { result ≡ no_layout }
    {
        let length = 0;
        Layout {
            route_type: 0,
            length,
            source: 0,
            group: 0,
            originator: 0,
            key: 0,
            fec: 0,
        }
    }
}

// Where the octets of a source begin, behind its length octet: in types 6 and 7 the source AS stands before that.
#[tactic(auto, using(octets::proofs::Tests::tests), unfolding(crate::specs::Inner::source_start))]
pub(crate) fn source_start(route_type: usize) -> usize
    ensures { result ≡ source_start route_type }
{
    if route_type == RouteType::SHARED_TREE_JOIN || route_type == RouteType::SOURCE_TREE_JOIN {
        return HEADER + RouteDistinguisher::WITH_SOURCE_AS + 1;
    }
    HEADER + RouteDistinguisher::OCTETS + 1
}

// Where a FEC starts: in 0x47 behind the source AS.
#[tactic(auto, using(octets::proofs::Tests::tests), unfolding(crate::specs::Inner::fec_start))]
pub(crate) fn fec_start(route_type: usize) -> usize
    ensures { result ≡ fec_start route_type }
{
    if route_type == RouteType::MLDP_SOURCE_TREE_JOIN {
        return HEADER + RouteDistinguisher::WITH_SOURCE_AS;
    }
    HEADER + RouteDistinguisher::OCTETS
}

// The layout of an NLRI whose source has its length octet at `at`.
pub(crate) fn flow_layout(route_type: usize, at: usize, s: &[u8]) -> Layout
    requires { FlowStands at s.now }
    ensures { result ≡ flow_layout route_type at s.now }
{
    let length = s[1] as usize;
    let source = s[at] as usize / 8;
    let group = s[at + 1 + source] as usize / 8;
    Layout {
        route_type,
        length,
        source,
        group,
        originator: length - at - source - group,
        key: 0,
        fec: 0,
    }
}

// The layout of an NLRI with a key, by its Length and that of its key.
pub(crate) fn leaf_layout(route_type: usize, s: &[u8]) -> Layout
    requires { KeyStands s.now }
    ensures { result ≡ leaf_layout route_type s.now }
{
    let length = s[1] as usize;
    let key = HEADER + s[HEADER + 1] as usize;
    Layout {
        route_type,
        length,
        source: 0,
        group: 0,
        originator: length - key,
        key,
        fec: 0,
    }
}

// The layout of an NLRI without source, group, key and FEC.
pub(crate) fn plain_layout(route_type: usize, originator: usize, s: &[u8]) -> Layout
    requires { 2 ≤ length s.now }
    ensures { result ≡ layout_with route_type (slice_index s.now 1) 0 0 originator 0 0 }
{
    let length = s[1] as usize;
    Layout {
        route_type,
        length,
        source: 0,
        group: 0,
        originator,
        key: 0,
        fec: 0,
    }
}
