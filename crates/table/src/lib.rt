// S-PMSI A-D routes of one VRF in lent memory: made, installed, withdrawn, marked, swept and listed (document 01, "The table memory").
#![tactic(auto)]

mod following;
mod installing;
mod making;
mod restarting;
mod table_info;
mod withdrawing;

pub use following::next;
pub use installing::install;
pub use making::make;
pub use restarting::{mark, sweep};
pub use table_info::info;
pub use withdrawing::withdraw;
