//! Small books whose searches can be followed by hand: what the definitions of a search make of them, and what searches
//! that go astray would make of them.
#![tactic(auto)]

mod theorems;

pub use theorems::{
    a_breach_outweighs_points_only_by_tier, a_free_plan_ends_the_search,
    a_ring_of_gaps_allows_nothing, an_event_may_come_at_the_horizon,
    events_at_once_come_as_early_as_they_can, first_plan_need_not_be_optimal,
    hopeless_only_above_takes_a_step_more, nothing_to_plan_takes_one_step,
    rules_that_exclude_each_other_allow_nothing, sum_and_worst_give_up_different_wishes,
    the_example_takes_six_steps, the_first_plan_may_be_dearer,
};
