// A plan for the wildcards (request W-214): a judge of proposed routes, whoever proposes them, and a planner that proposes some. Flows and
// places are read where they lie, and no octet of them is copied. Neither installed nor exported, as `octets`.
#![tactic(auto)]

mod commonest;
mod flows;
mod judging;
mod planning;
mod proposal;
mod refusals;
mod vrf;
mod writing;

pub use commonest::Leader;
pub use judging::judge;
pub use planning::plan;

// An item of the list of flows has three fields: source, group, wanted attribute.
pub(crate) const FIELDS: usize = 3;

// What the judge answers: DONE with 1 or 0, or a refusal's number and 0.
#[repr(C)]
#[derive(Clone, Copy)]
pub struct Judged {
    pub number: u32,
    pub accepted: u32,
}

// What the planner answers: DONE with how many routes, or a refusal's number and 0.
#[repr(C)]
#[derive(Clone, Copy)]
pub struct Planned {
    pub number: u32,
    pub routes: u32,
}
