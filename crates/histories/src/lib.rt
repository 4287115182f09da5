//! Lists of calls on planners, and what a planner is worth after any of them.
#![tactic(auto)]

mod calls;
mod planners;
mod replays;

pub use calls::{Answer, Call, Rejection, Reply};
pub use planners::Planner;
pub use replays::{Both, History, Replayed, replay, replay_both};
