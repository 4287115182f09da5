//! A problem: a day and the rules for it.
ghost use Rattle.std.specs.Prelude.{◌≡◌, ◌≤◌, true, map, vec_len, vec_capacity};
ghost use Rattle.std.specs.List.{flat_map};
ghost use Rattle.problem.specs.Bounds.{max_rules};
ghost use Rattle.problem.specs.Checks.{passes, rule_checks};
ghost use Rattle.problem.specs.Rules.{rule_of};

use crate::constraint::Constraint;
use crate::day::Day;
use crate::refusal::Refusal;

pub mod calls;

/// The most rules of a problem.
pub const MAX_RULES: usize = 32;

/// A disjunctive temporal problem: a day, and rules that each fit it. Room for all rules is taken when it is made.
#[derive(Drop)]
pub struct Problem {
    day: Day,
    rules: Vec<Constraint>,
    ghost room: { max_rules ≤ vec_capacity rules },
    ghost few: { vec_len rules ≤ max_rules },
    ghost fit: { passes (flat_map (rule_checks day) (map rule_of rules.items)) ≡ true },
}

/// A rule that was not adopted, handed back, and why.
#[derive(Drop)]
pub struct Unadopted {
    pub refusal: Refusal,
    pub rule: Constraint,
}
