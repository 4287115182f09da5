//! TIER: breaches weigh more than any points.
ghost use Rattle.std.specs.Prelude.{◌≡◌, refl};
ghost use Rattle.counting.specs.Three.{tier, tier_way};
ghost use Rattle.counting.specs.Lawful.{tier_lawful};

use crate::costs::Tier;
use crate::penalty::Penalty;
use crate::stops::{BREACHES_STOP, POINTS_STOP};
use crate::way::{Counting, Shown};

/// The cost of so many breaches and points, within the stops.
fn stopped(breaches: u32, points: u32) -> Tier
    ensures { result ≡ tier breaches points }
{
    if breaches > BREACHES_STOP {
        return Tier {
            breaches: BREACHES_STOP,
            points: POINTS_STOP,
        };
    }
    Tier {
        breaches,
        points: points.min(POINTS_STOP),
    }
}

impl Counting for Tier {
    ghost way = { tier_way };

    ghost ZERO = { tier_way.zero };

    const ZERO: Tier = Tier {
        breaches: 0,
        points: 0,
    };

    fn reading(penalty: Penalty) -> Tier {
        stopped(penalty.breaches, penalty.points)
    }

    fn join(self, other: Tier) -> Tier {
        stopped(self.breaches + other.breaches, self.points + other.points)
    }

    fn at_most(self, other: Tier) -> bool {
        self <= other
    }

    fn shown(self) -> Shown {
        Shown {
            first: self.breaches,
            second: self.points,
        }
    }

    ghost zero_cost = { refl };

    ghost lawful = { tier_lawful };
}
