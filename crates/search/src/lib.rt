//! What a search means, and why its end can be trusted.
#![tactic(auto)]

mod theorems;
mod word;

pub use theorems::{
    a_search_ends_within_its_selections, an_ended_search_is_optimal, order_of_rules_is_free,
    settled_selections_are_no_cheaper, smallest_minutes_meet_a_selection_together,
    steps_determine_a_search,
};
pub use word::Word;
