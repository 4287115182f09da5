//! Which rules a selection gives up, as the bits of a word.
ghost use Rattle.std.specs.Prelude.{◌≡◌};
ghost use Rattle.search.specs.Outcomes.{given_bits};
ghost use Rattle.planner.specs.Choosing.{rules_in};

use crate::choice::option_of;
use crate::selection::Selection;

impl Selection<'_> {
    /// The word whose bit i is 1 where rule i is given up.
    pub(crate) fn given_up(self) -> u32
        ensures { result ≡ given_bits (rules_in self.entry) self.entry.choices.now }
    {
        let mut word = 0;
        let picks = self.problem.rules().iter().zip(self.choices);
        for (i, (rule, choice)) in picks.enumerate() {
            if option_of(rule, usize::from(*choice)).is_none() {
                word |= 1u32 << i;
            }
        }
        word
    }
}
