//! What a given timetable costs, under any way of counting.
#![tactic(auto)]

mod cost;
mod least;
mod objection;

pub use cost::cost_of;
pub use objection::Objection;
