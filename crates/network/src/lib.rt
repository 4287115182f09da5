//! Simple temporal networks: what a network means, and what follows for any of them.
#![tactic(auto)]

mod call;
mod calls;
mod laws;
mod limit;
mod limit_list;
mod limit_stack;

pub use call::{Call, Reply};
pub use calls::Network;
pub use laws::{
    a_shorter_list_stays_solvable, minimum_of_solutions_is_a_solution, order_of_limits_is_free,
    smallest_minutes_solve_together,
};
pub use limit::{Limit, MAX_LIMITS, check_limit};
pub use limit_list::LimitList;
