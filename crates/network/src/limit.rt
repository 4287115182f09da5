//! Limits on the minutes between two events, and when a network takes one.
ghost use Rattle.std.specs.Prelude.{◌≡◌};
ghost use Rattle.std.specs.Result.{result_err};
ghost use Rattle.problem.specs.Checks.{first_refusal};
ghost use Rattle.network.specs.Limits.{limit_checks};

use problem::{Day, Refusal, is_bound};

/// The most limits of a network: two for each of 32 rules.
pub const MAX_LIMITS: usize = 64;

/// Event `x` comes at most `bound` minutes after event `y`.
#[derive(Clone, Copy, PartialEq, Eq, Debug, Default)]
pub struct Limit {
    pub x: usize,
    pub y: usize,
    pub bound: i32,
}

/// Whether a network of the day that holds `count` limits may take another. Refuses with 6 (events), 7 (bound), then
/// 13 (number of limits).
pub fn check_limit(day: Day, count: usize, limit: Limit) -> Result<(), Refusal>
    ensures { result_err result ≡ first_refusal (limit_checks day count limit) }
{
    if !day.has_pair(limit.x, limit.y) {
        return Err(Refusal::EventPair);
    }
    if !is_bound(limit.bound) {
        return Err(Refusal::BoundRange);
    }
    if count >= MAX_LIMITS {
        return Err(Refusal::LimitCount);
    }
    Ok(())
}
