//! The shortest hopeless prefix of a selection.
ghost use Rattle.std.specs.Prelude.{◌≡◌, length, None, Decides};
ghost use Rattle.planner.specs.Choosing.{rules_in};
ghost use Rattle.planner.specs.Loading.{Stands};
ghost use Rattle.planner.specs.Probing.{Beaten, Probed};

use crate::cursor::Cursor;
use crate::selection::Selection;
use counting::Counting;
use network::Network;

/// Whether a price is kept and is at most the other.
fn beaten<W: Counting>(best: Option<W>, price: W) -> bool
    ensures { Decides result (Beaten W.Counting.way best price) }
{
    best.is_some_and(|kept| kept.at_most(price))
}

impl<W: Counting, N: Network> Cursor<'_, W, N> {
    /// The length of the shortest hopeless prefix of the selection, if there is one. Without one, the whole selection
    /// is loaded in the end.
    pub(crate) fn probe(&mut self, selection: Selection) -> Option<usize>
        requires stands { Stands selection self.old.depth (N.Network.net self.old.network.now) }
        ensures stands { Stands selection.entry self.new.depth (N.Network.net self.new.network.now) }
        ensures probed { Probed W.Counting.way selection.entry.problem.now.day (rules_in selection.entry) self.old.best selection.entry.choices.now result }
        ensures whole { result ≡ None → self.new.depth ≡ length selection.entry.choices.now }
        ensures best { self.new.best ≡ self.old.best }
    {
        let best = self.best;
        let mut price = W::ZERO;
        if beaten(best, price) {
            return Some(0);
        }
        for i in 0..selection.choices.len() {
            if self.load(selection, i).is_err() {
                return Some(i + 1);
            }
            price = price.join(W::reading(selection.penalty(i)));
            if beaten(best, price) {
                return Some(i + 1);
            }
        }
        None
    }
}
