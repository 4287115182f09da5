//! A stack of limits, which lies in the value itself.
use crate::limit::{Limit, MAX_LIMITS};
use std::marker::Model;

pub mod calls;

/// At most 64 limits, the newest last. Taking limits off writes no limit: past the first `count` nothing is read.
#[derive(Drop)]
pub(crate) struct LimitStack {
    count: usize,
    limits: [Limit; MAX_LIMITS],
}

impl Model for LimitStack {
    ghost use Rattle.std.specs.Prelude.{◌≡◌, ◌≤◌, List, length, take};
    ghost use Rattle.network.specs.Limits.{max_limits};
    ghost use Rattle.network.specs.declared.limit.Limit.{Limit};

    ghost Value = { List Limit };

    ghost view = { λ stack. take stack.count stack.limits };

    ghost invariant = { λ stack. (stack.count ≤ max_limits) × (length stack.limits ≡ max_limits) };
}
