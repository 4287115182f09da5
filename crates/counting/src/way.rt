//! What a way of counting is.
ghost use Rattle.std.specs.Prelude.{◌≡◌, Some};
ghost use Rattle.counting.specs.Ways.{Way, Laws, shown_text};

use crate::penalty::Penalty;
use std::fmt;

/// The two numbers by which a cost is printed.
#[derive(Clone, Copy, PartialEq, Eq, Debug)]
pub struct Shown {
    pub first: u32,
    pub second: u32,
}

/// Both numbers with a comma between them.
impl fmt::Display for Shown {
    ghost output = { λ shown. Some (shown_text shown) };

    fn fmt<W: fmt::Write>(&self, f: &mut fmt::Formatter<W>) -> fmt::Result {
        let Shown { first, second } = *self;
        write!(f, "{first},{second}")
    }
}

/// A way of counting: a type of costs with a zero, a reading of penalties, a join, an order and a showing.
/// Its ghost member says which they are, and its law what a search may rely on.
pub trait Counting: Copy {
    ghost way: { Way Self };

    ghost ZERO: { Self };

    /// The zero cost. Generic code learns by the law `zero_cost` which value it is.
    const ZERO: Self;

    /// The cost of a penalty.
    fn reading(penalty: Penalty) -> Self
        ensures { result ≡ way.reading penalty };

    /// The cost of both together.
    fn join(self, other: Self) -> Self
        ensures { result ≡ way.join self other };

    /// Whether this cost is at most the other.
    fn at_most(self, other: Self) -> bool
        ensures { result ≡ way.atmost self other };

    /// The cost as it is printed.
    fn shown(self) -> Shown
        ensures { result ≡ way.shown self };

    ghost zero_cost: { ZERO ≡ way.zero };

    ghost lawful: { Laws way };
}
