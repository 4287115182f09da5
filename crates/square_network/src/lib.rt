//! A simple temporal network that keeps the shortest distances between all pairs of events.
#![tactic(auto)]

mod distances;
mod square;

pub use square::SquareNetwork;
