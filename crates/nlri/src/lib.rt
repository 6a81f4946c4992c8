// MCAST-VPN NLRI (RFC 6514, section 4; RFC 6625; RFC 7441): families, route types, addresses, groups, and NLRIs read.
#![tactic(auto)]

mod address;
mod body;
mod family;
mod fields;
mod group;
mod header;
mod layout;
pub mod mldp;
mod read;
pub mod route;
pub mod standing;
mod sure;

pub use address::{Address, AddressKind, RouteDistinguisher};
pub use body::{is_allowed, is_originator_size};
pub use family::{AddressFamily, family_of};
pub use fields::{Nlri, NlriReading, read_nlri};
pub use group::{Group, GroupClass, group_class, is_ssm};
pub use header::{HEADER, Header, read_header};
pub use layout::Layout;
pub use read::{check_front, check_front_fast, check_of_type, is_s_pmsi, read_front, read_key};
pub use route::RouteType;
