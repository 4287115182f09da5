//! What a selection picks for a rule.
ghost use Rattle.std.specs.Prelude.{◌≡◌, ◌+◌, ◌<◌, length, slice_index, slice_index_or, Decides};
ghost use Rattle.problem.specs.Costs.{charge};
ghost use Rattle.problem.specs.Rules.{Rule, rule_of};
ghost use Rattle.planner.specs.Choosing.{as_option, choice_in, rules_in, width_at};

use crate::choice::{option_of, penalty_of, width};
use crate::selection::Selection;
use counting::Penalty;
use problem::{Constraint, Disjunct};

impl<'a> Selection<'a> {
    /// Rule `i`.
    fn rule(self, i: usize) -> &'a Constraint
        requires { i < length self.choices.now }
        ensures { (other : Rule) → slice_index_or (rules_in self.entry) i other ≡ rule_of result.now }
    {
        &self.problem.rules()[i]
    }

    /// The option that is chosen of rule `i`, or none where the rule is given up.
    pub(crate) fn option(self, i: usize) -> Option<Disjunct>
        requires { i < length self.choices.now }
        ensures { result ≡ as_option (choice_in self.entry i) }
    {
        option_of(self.rule(i), usize::from(self.choices[i]))
    }

    /// The penalty of the choice of rule `i`.
    pub(crate) fn penalty(self, i: usize) -> Penalty
        requires { i < length self.choices.now }
        ensures { result ≡ charge (choice_in self.entry i) }
    {
        penalty_of(self.rule(i), usize::from(self.choices[i]))
    }

    /// Whether the choice of rule `i` is not its last.
    pub(crate) fn rises(self, i: usize) -> bool
        requires { i < length self.choices.now }
        ensures { Decides result (slice_index self.entry.choices.now i + 1 < width_at (rules_in self.entry) i) }
    {
        usize::from(self.choices[i]) + 1 < width(self.rule(i))
    }
}
