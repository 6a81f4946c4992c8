// The class of a customer group with the prefixes that a caller gives for its own ranges of SSM: up to eight, in a lent list (request W-209).
#![tactic(auto)]

mod class;
mod lent;
mod prefix;

pub use class::{check_prefixes, class_by_prefixes, group_class};
