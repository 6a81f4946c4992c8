// Runs of MCAST-VPN NLRIs, as MP_REACH_NLRI and MP_UNREACH_NLRI carry them: stepped through and walked.
#![tactic(auto)]

mod mode;
mod stepping;
mod turning;
mod walking;

pub use mode::{Mode, is_skipped};
pub use stepping::{Cursor, RUN, Step};
pub use turning::{Turn, take_turn};
pub use walking::{Walked, walk};
