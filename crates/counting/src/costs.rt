//! The costs of the three ways. No value of these types passes the stops of its way.
ghost use Rattle.std.specs.Prelude.{◌≤◌};
ghost use Rattle.counting.specs.Stops.{max_points, points_stop, breaches_stop};

/// A cost of SUM: the points of all rules together.
#[derive(Clone, Copy, PartialEq, Eq, PartialOrd, Ord, Debug)]
pub struct Sum {
    pub(crate) total: u32,
    ghost stops: { total ≤ points_stop },
}

/// A cost of WORST: the largest points of one rule.
#[derive(Clone, Copy, PartialEq, Eq, PartialOrd, Ord, Debug)]
pub struct Worst {
    pub(crate) largest: u32,
    ghost stops: { largest ≤ max_points },
}

/// A cost of TIER: breaches first, then points.
#[derive(Clone, Copy, PartialEq, Eq, PartialOrd, Ord, Debug)]
pub struct Tier {
    pub(crate) breaches: u32,
    pub(crate) points: u32,
    ghost few: { breaches ≤ breaches_stop },
    ghost stops: { points ≤ points_stop },
}
