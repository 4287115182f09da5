//! Ways of counting: what a cost is, and how costs are joined, compared and shown.
#![tactic(auto)]

mod costs;
mod penalty;
mod stops;
mod sums;
mod tiers;
mod way;
mod worsts;

pub use costs::{Sum, Tier, Worst};
pub use penalty::{MAX_BREACHES, MAX_POINTS, Penalty};
pub use stops::{BREACHES_STOP, POINTS_STOP, separate_stops_break_the_order};
pub use way::{Counting, Shown};
