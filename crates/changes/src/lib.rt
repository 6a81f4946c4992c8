// Where an NLRI stands or belongs in a sound table, and places written, opened, closed and kept there. Neither installed nor exported, as
// `octets`.
#![tactic(auto)]

pub mod change;
pub mod find;
