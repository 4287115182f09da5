//! Rounds as text: the minutes that a line states.
#![tactic(auto)]

mod reading;

pub use reading::{
    RoundFault, a_line_states_one_round, a_refused_line_states_no_round, read_round,
};
