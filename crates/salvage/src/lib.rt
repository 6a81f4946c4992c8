// A damaged table's good places brought into a sound table (request W-212).
#![tactic(auto)]

mod salvaging;

pub use salvaging::salvage;
