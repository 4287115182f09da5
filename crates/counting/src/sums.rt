//! SUM: points are added.
ghost use Rattle.std.specs.Prelude.{refl};
ghost use Rattle.counting.specs.Three.{sum_way};
ghost use Rattle.counting.specs.Lawful.{sum_lawful};

use crate::costs::Sum;
use crate::penalty::Penalty;
use crate::stops::POINTS_STOP;
use crate::way::{Counting, Shown};

impl Counting for Sum {
    ghost way = { sum_way };

    ghost ZERO = { sum_way.zero };

    const ZERO: Sum = Sum { total: 0 };

    fn reading(penalty: Penalty) -> Sum {
        Sum {
            total: penalty.points.min(POINTS_STOP),
        }
    }

    fn join(self, other: Sum) -> Sum {
        Sum {
            total: (self.total + other.total).min(POINTS_STOP),
        }
    }

    fn at_most(self, other: Sum) -> bool {
        self <= other
    }

    fn shown(self) -> Shown {
        Shown {
            first: 0,
            second: self.total,
        }
    }

    ghost zero_cost = { refl };

    ghost lawful = { sum_lawful };
}
