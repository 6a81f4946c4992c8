// Where things stand in a table's octets (document 01, "The table memory").

// The octets before the places: "MVT" and the version, then AFI and count.
pub const HEADER: usize = 8;

pub const AFI: usize = 5;

pub const COUNT: usize = 6;

// The octets of a place, and the most places.
pub const PLACE: usize = 128;

pub const MOST_PLACES: usize = 500;

// In a place: the size of the NLRI, that of the attribute, and behind them NLRI and attribute.
pub const NLRI_SIZE: usize = 0;

pub const ATTRIBUTE_SIZE: usize = 1;

pub const ROUTE: usize = 2;

// Its last octet: 1 where its route is marked stale, else 0.
pub const MARK: usize = 127;
