// Which route a flow takes (document 01, "Which route a flow takes"): the flow judged, the tier of a route, the scan over places, and the
// calls that match and explain. Neither installed nor exported, as `octets`.
#![tactic(auto)]

mod answer;
mod explaining;
pub mod flow;
mod matching;
pub mod scan;
mod shared;
pub mod tier;

pub use explaining::explain;
pub use matching::match_flow;
pub use shared::match_shared;
