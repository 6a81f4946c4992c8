// The places of a table's memory (document 01, "The table memory"): geometry, header, soundness, the judge of a route, a place read and
// written. Neither installed nor exported, as `octets`.
#![tactic(auto)]

pub mod geometry;
pub mod header;
pub mod judge;
pub mod output;
pub mod place;
pub mod sound;
