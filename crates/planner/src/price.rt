//! What a selection costs.
ghost use Rattle.std.specs.Prelude.{◌≡◌};
ghost use Rattle.search.specs.Selections.{price};
ghost use Rattle.planner.specs.Choosing.{rules_in};

use crate::choice::penalty_of;
use crate::selection::Selection;
use counting::Counting;

impl Selection<'_> {
    /// The costs of the choices, joined in rule order from zero.
    pub(crate) fn price<W: Counting>(self) -> W
        ensures { result ≡ price W.Counting.way (rules_in self.entry) self.entry.choices.now }
    {
        let mut total = W::ZERO;
        for (rule, choice) in self.problem.rules().iter().zip(self.choices) {
            total = total.join(W::reading(penalty_of(rule, usize::from(*choice))));
        }
        total
    }
}
