//! The planner: a draft that takes a day and rules, and a search over any network and any way of counting.
#![tactic(auto)]

mod advance;
mod choice;
mod cursor;
mod drafts;
mod given;
mod load;
mod outcome;
mod picks;
mod price;
mod probe;
mod progress;
mod searches;
mod selection;
mod states;
mod step;

pub use outcome::Outcome;
pub use searches::MAX_PRESS;
pub use states::{Draft, Search};
