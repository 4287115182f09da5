//! From one selection to the next.
ghost use Rattle.std.specs.Prelude.{◌≡◌, ◌<◌, ◌≤◌, length, slice_index};
ghost use Rattle.planner.specs.Advancing.{Raisable, raised};
ghost use Rattle.planner.specs.Choosing.{rules_in};

use crate::selection::Selection;

impl Selection<'_> {
    /// The last of the first `below` rules whose choice is not its last.
    pub(crate) fn raisable(self, below: usize) -> Option<usize>
        requires { below ≤ length self.choices.now }
        ensures { Raisable (rules_in self.entry) self.entry.choices.now below result }
    {
        (0..below).rev().find(|i| self.rises(*i))
    }
}

/// Takes the next choice of rule `i`, and the first choices of the rules behind it.
pub(crate) fn raise(choices: &mut [u8], i: usize)
    requires within { i < length choices.old }
    requires small { slice_index choices.old i < 255 }
    ensures { choices.new ≡ raised i choices.old }
{
    choices[i] += 1;
    choices[i + 1..].fill(0);
}
