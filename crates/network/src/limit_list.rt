//! A list of limits for a day, which both networks keep.
ghost use Rattle.std.specs.Prelude.{◌≤◌, length};
ghost use Rattle.std.specs.List.{AllByRecursion};
ghost use Rattle.std.proofs.Props.{props};
ghost use Rattle.network.specs.Limits.{Lawful, max_limits};

use crate::limit_stack::LimitStack;
use problem::Day;

pub mod calls;

/// A day, and limits that are lawful for it, the newest last. It allocates nothing.
#[derive(Drop)]
pub struct LimitList {
    day: Day,
    limits: LimitStack,
    ghost lawful: { AllByRecursion (Lawful day) limits } by { Prim.hlevel props },
    ghost few: { length limits ≤ max_limits },
}
