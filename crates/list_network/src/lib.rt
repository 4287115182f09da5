//! A simple temporal network that keeps its limits as a list.
#![tactic(auto)]

mod list;
mod relax;

pub use list::ListNetwork;
