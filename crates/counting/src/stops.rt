//! Where costs stop growing, and why TIER does not stop its two numbers separately.
ghost use Rattle.counting.specs.Separate.{SeparateStopsBreakTheOrder};

/// No SUM total and no TIER points pass this.
pub const POINTS_STOP: u32 = 1_000_000_000;

/// No TIER breaches pass this.
pub const BREACHES_STOP: u32 = 1_000;

/// The theorem: if TIER stopped breaches and points each for itself, joining one cost to both sides could turn the
/// order of two costs.
pub fn separate_stops_break_the_order()
    ensures { SeparateStopsBreakTheOrder }
{}
