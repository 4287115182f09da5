//! The checks of a rule against the day it is for, in their order.
ghost use Rattle.std.specs.Prelude.{◌≡◌};
ghost use Rattle.std.specs.Result.{result_err};
ghost use Rattle.std.specs.List.{flat_map};
ghost use Rattle.problem.specs.Rules.{rule_of};
ghost use Rattle.problem.specs.Checks.{first_refusal, in_range, penalty_checks, kind_checks, disjunct_checks, rule_checks};

use crate::constraint::{Constraint, Disjunct, Kind, MAX_BOUND, MAX_DISJUNCTS};
use crate::day::Day;
use crate::refusal::Refusal;
use counting::{MAX_BREACHES, MAX_POINTS, Penalty};

fn check_penalty(penalty: Penalty) -> Result<(), Refusal>
    ensures { result_err result ≡ first_refusal (penalty_checks penalty) }
{
    if penalty.breaches > MAX_BREACHES || penalty.points > MAX_POINTS {
        return Err(Refusal::PenaltyRange);
    }
    Ok(())
}

fn check_kind(kind: Kind) -> Result<(), Refusal>
    ensures { result_err result ≡ first_refusal (kind_checks kind) }
{
    match kind {
        Kind::Firm => Ok(()),
        Kind::Wish(penalty) => check_penalty(penalty),
    }
}

/// Whether a gap may have these minutes as its bound.
pub fn is_bound(minutes: i32) -> bool
    ensures { result ≡ in_range minutes }
{
    (-MAX_BOUND..=MAX_BOUND).contains(&minutes)
}

fn check_disjunct(day: Day, disjunct: &Disjunct) -> Result<(), Refusal>
    ensures { result_err result ≡ first_refusal (disjunct_checks day disjunct.now) }
{
    let Disjunct {
        x,
        y,
        lo,
        hi,
        penalty,
    } = *disjunct;
    if !day.has_pair(x, y) {
        return Err(Refusal::EventPair);
    }
    if !is_bound(lo) || !is_bound(hi) || lo > hi {
        return Err(Refusal::BoundRange);
    }
    check_penalty(penalty)
}

fn check_disjuncts(day: Day, disjuncts: &[Disjunct]) -> Result<(), Refusal>
    ensures { result_err result ≡ first_refusal (flat_map (disjunct_checks day) disjuncts.now) }
{
    for disjunct in disjuncts {
        check_disjunct(day, disjunct)?;
    }
    Ok(())
}

/// Whether the rule fits the day. Refuses with 5 (number of options), then 8 (the penalty for giving up), then for
/// each option in turn with 6 (events), 7 (bounds) and 8 (penalty).
pub fn check_rule(day: Day, rule: &Constraint) -> Result<(), Refusal>
    ensures { result_err result ≡ first_refusal (rule_checks day (rule_of rule.now)) }
{
    if !(1..=MAX_DISJUNCTS).contains(&rule.disjuncts.len()) {
        return Err(Refusal::DisjunctCount);
    }
    check_kind(rule.kind)?;
    check_disjuncts(day, rule.disjuncts.as_slice())
}
