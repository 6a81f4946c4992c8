// Runs of MCAST-VPN NLRIs that arrive in pieces: a reader that keeps at most one unfinished NLRI, in octets that its caller lends.
#![tactic(auto)]

mod feeding;
mod reading;
mod state;

pub use feeding::Fed;
pub use reading::{UNFINISHED, UnfinishedNlri};
pub use state::{Pieces, Stage};
