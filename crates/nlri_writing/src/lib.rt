// MCAST-VPN NLRI, written (RFC 6514, section 4; RFC 6625; RFC 7441): an NLRI from its fields, at the front of an output. Document 01's
// definitions of what is written, and the theorems about them, are those of `nlri`.
#![tactic(auto)]

mod key;
mod put;
mod write;

pub use write::write_nlri;
