//! How a stack of limits is made and changed, and what it shows.
ghost use Rattle.std.specs.Prelude.{◌≡◌, ◌-◌, ◌<◌, [], ◌∷◌, ◌++◌, length, take};
ghost use Rattle.network.specs.Limits.{max_limits};

use crate::limit::{Limit, MAX_LIMITS};
use crate::limit_stack::LimitStack;

// what stands where no limit was put yet
const NO_LIMIT: Limit = Limit {
    x: 0,
    y: 0,
    bound: 0,
};

impl LimitStack {
    /// No limits.
    pub(crate) fn new() -> LimitStack
        ensures { result ≡ [] }
    {
        LimitStack {
            count: 0,
            limits: [NO_LIMIT; MAX_LIMITS],
        }
    }

    /// The limits, the newest last.
    pub(crate) fn as_slice(&self) -> &[Limit]
        ensures { result.now ≡ self.now }
    {
        &self.limits[..self.count]
    }

    /// How many limits there are.
    pub(crate) fn len(&self) -> usize
        ensures { result ≡ length self.now }
    {
        self.count
    }

    /// Takes all limits off.
    pub(crate) fn clear(&mut self)
        ensures { self.new ≡ [] }
    {
        self.count = 0;
    }

    /// Puts the limit last.
    pub(crate) fn push(&mut self, limit: Limit)
        requires { length self.old < max_limits }
        ensures { self.new ≡ self.old ++ (limit ∷ []) }
    {
        self.limits[self.count] = limit;
        self.count += 1;
    }

    /// Takes the newest limit off.
    pub(crate) fn drop_newest(&mut self)
        requires { 0 < length self.old }
        ensures { self.new ≡ take (length self.old - 1) self.old }
    {
        self.count -= 1;
    }
}
