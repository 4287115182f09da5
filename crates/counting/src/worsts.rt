//! WORST: the larger points are kept.
ghost use Rattle.std.specs.Prelude.{refl};
ghost use Rattle.counting.specs.Three.{worst_way};
ghost use Rattle.counting.specs.Lawful.{worst_lawful};

use crate::costs::Worst;
use crate::penalty::{MAX_POINTS, Penalty};
use crate::way::{Counting, Shown};

impl Counting for Worst {
    ghost way = { worst_way };

    ghost ZERO = { worst_way.zero };

    const ZERO: Worst = Worst { largest: 0 };

    fn reading(penalty: Penalty) -> Worst {
        Worst {
            largest: penalty.points.min(MAX_POINTS),
        }
    }

    fn join(self, other: Worst) -> Worst {
        Worst {
            largest: self.largest.max(other.largest),
        }
    }

    fn at_most(self, other: Worst) -> bool {
        self <= other
    }

    fn shown(self) -> Shown {
        Shown {
            first: 0,
            second: self.largest,
        }
    }

    ghost zero_cost = { refl };

    ghost lawful = { worst_lawful };
}
