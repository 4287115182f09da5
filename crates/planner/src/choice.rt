//! The choices of a rule: its options in stated order, then giving up where it is a wish.
ghost use Rattle.std.specs.Prelude.{◌≡◌, ◌<◌, length, slice_index_or};
ghost use Rattle.problem.specs.Costs.{charge};
ghost use Rattle.problem.specs.Rules.{rule_of};
ghost use Rattle.problem.specs.Timetables.{choices};
ghost use Rattle.search.specs.Selections.{no_choice};
ghost use Rattle.planner.specs.Choosing.{as_option};

use counting::Penalty;
use problem::{Constraint, Disjunct, Kind};

/// How many choices the rule has.
pub(crate) fn width(rule: &Constraint) -> usize
    ensures { result ≡ length (choices (rule_of rule.now)) }
{
    match rule.kind {
        Kind::Firm => rule.disjuncts.len(),
        Kind::Wish(_) => rule.disjuncts.len() + 1,
    }
}

/// The option that the choice takes, or none where it gives the rule up.
pub(crate) fn option_of(rule: &Constraint, choice: usize) -> Option<Disjunct>
    ensures { result ≡ as_option (slice_index_or (choices (rule_of rule.now)) choice no_choice) }
{
    rule.disjuncts.get(choice).copied()
}

/// The penalty of the choice.
pub(crate) fn penalty_of(rule: &Constraint, choice: usize) -> Penalty
    requires { choice < length (choices (rule_of rule.now)) }
    ensures { result ≡ charge (slice_index_or (choices (rule_of rule.now)) choice no_choice) }
{
    match (option_of(rule, choice), rule.kind) {
        (Some(option), _) => option.penalty,
        (None, Kind::Wish(penalty)) => penalty,
        (None, Kind::Firm) => unreachable!(),
    }
}
