// Sizes of identifiers, in octets.
pub const IPV4: usize = 4;

pub const IPV6: usize = 16;

pub const TWO_IPV4: usize = 8;

pub const TWO_IPV6: usize = 32;

// extended tunnel, reserved, tunnel and P2MP identifiers of an RSVP-TE session, in IPv4 form
pub const RSVP_TE_SESSION: usize = 12;

// sub-domain 1, BFR-id 2, prefix
pub const BIER_IPV4: usize = 7;

pub const BIER_IPV6: usize = 19;
