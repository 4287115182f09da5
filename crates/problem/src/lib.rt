//! The problem: days, timetables, constraints with their disjuncts, and the refusals of all calls.
#![tactic(auto)]

mod checks;
mod constraint;
mod day;
mod problems;
mod refusal;
mod timetable;

pub use checks::{check_rule, is_bound};
pub use constraint::{Constraint, Disjunct, Kind, MAX_BOUND, MAX_DISJUNCTS};
pub use day::{Day, MAX_EVENTS, MAX_HORIZON};
pub use problems::{MAX_RULES, Problem, Unadopted};
pub use refusal::Refusal;
pub use timetable::{Flaw, Timetable, check_timetable};
