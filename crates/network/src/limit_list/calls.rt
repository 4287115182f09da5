//! How a list of limits is made and changed, and what it tells.
ghost use Rattle.std.specs.Prelude.{◌≡◌, length, MatchResult};
ghost use Rattle.std.specs.Result.{result_err};
ghost use Rattle.problem.specs.Checks.{first_refusal, day_checks};
ghost use Rattle.network.specs.Calls.{Emptied, Popped, refusal_before, with_limit};
ghost use Rattle.network.specs.Lists.{net_of};

use crate::limit::{Limit, check_limit};
use crate::limit_list::LimitList;
use crate::limit_stack::LimitStack;
use problem::{Day, Refusal};

impl LimitList {
    /// No limits for the day of one event and horizon 0.
    pub fn new() -> LimitList
        ensures { Emptied 1 0 (net_of result) }
    {
        LimitList {
            day: Day::single(),
            limits: LimitStack::new(),
        }
    }

    /// The day.
    pub fn day(&self) -> Day
        ensures { result ≡ (net_of self.now).day }
    {
        self.day
    }

    /// The limits, the newest last.
    pub fn as_slice(&self) -> &[Limit]
        ensures { result.now ≡ (net_of self.now).limits }
    {
        self.limits.as_slice()
    }

    /// How many limits there are.
    pub fn len(&self) -> usize
        ensures { result ≡ length (net_of self.now).limits }
    {
        self.limits.len()
    }

    /// Takes the day of so many events and this horizon, with no limits. Refuses with 1 (events), then 2 (horizon).
    pub fn reset(&mut self, events: usize, horizon: u32) -> Result<(), Refusal>
        ensures refused { result_err result ≡ first_refusal (day_checks events horizon) }
        ensures cases { MatchResult result (λ _. Emptied events horizon (net_of self.new)) (λ _. self.new ≡ self.old) }
    {
        self.day = Day::new(events, horizon)?;
        self.limits.clear();
        Ok(())
    }

    /// Puts the limit last. Refuses with 6 (events), 7 (bound), then 13 (number of limits).
    pub fn push(&mut self, limit: Limit) -> Result<(), Refusal>
        ensures refused { result_err result ≡ refusal_before (net_of self.old) limit }
        ensures cases { MatchResult result (λ _. net_of self.new ≡ with_limit (net_of self.old) limit) (λ _. self.new ≡ self.old) }
    {
        check_limit(self.day, self.limits.len(), limit)?;
        self.limits.push(limit);
        Ok(())
    }

    /// Takes the newest limit off. Refuses with 15 where there is none.
    pub fn pop(&mut self) -> Result<(), Refusal>
        ensures { Popped (net_of self.old) result (net_of self.new) }
    {
        if self.limits.len() == 0 {
            return Err(Refusal::NoLimit);
        }
        self.limits.drop_newest();
        Ok(())
    }
}
