// What a daemon tells of a shared tree (C-*,C-G) and the PE asked (RFC 6625, section 3.2.2): judged, and whether it makes routes
// eligible. Lists are read where they lie, and no octet is copied. Neither installed nor exported to C, so its functions may have a
// `requires`: the match for shared trees judges before it asks whether routes are eligible.
#![tactic(auto)]

mod eligible;
mod judge;

pub use eligible::is_eligible;
pub use judge::tree_class;

// What the daemon tells beside the lists, each 0 or not: the PE is upstream for the C-RP of the group; the group is a BIDIR-PIM
// group; Source Active routes are not being used.
#[repr(C)]
#[derive(Clone, Copy)]
pub struct TreeFacts {
    pub upstream: u32,
    pub bidirectional: u32,
    pub source_active_unused: u32,
}

// An item of either list has two fields: originator and NLRI of a Source Active route, source and group of a state.
pub(crate) const FIELDS: usize = 2;
