//! Certificates of what a search did: evidence that a small computation checks.
#![tactic(auto)]

mod theorems;

pub use theorems::{
    a_ring_below_zero_clashes, certified_steps_are_steps, chains_show_the_smallest_minutes,
    settled_enumeration_ends_a_search,
};
