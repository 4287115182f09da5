//! Putting the limits of choices on a network, and taking them off again.
ghost use Rattle.std.specs.Prelude.{◌≡◌, ◌+◌, ◌<◌, ◌≤◌, min, max, true, List, [], ◌∷◌, ◌++◌, length, take, neg_ℤ, MatchResult};
ghost use Rattle.std.specs.List.{AllByRecursion};
ghost use Rattle.problem.specs.Checks.{in_range};
ghost use Rattle.problem.specs.Timetables.{Choice};
ghost use Rattle.network.specs.Limits.{max_limits, Lawful};
ghost use Rattle.search.specs.Limiting.{upper_limit, lower_limit, choice_limits};
ghost use Rattle.search.specs.Selections.{Feasible};
ghost use Rattle.planner.specs.Choosing.{choice_in, rules_in};
ghost use Rattle.planner.specs.Loading.{Put, Stands, Without};

use crate::cursor::Cursor;
use crate::selection::Selection;
use network::{Limit, Network};
use problem::{Disjunct, Refusal};

/// Event `x` of the option comes at most its upper bound after `y`.
fn upper_limit(option: Disjunct) -> Limit
    ensures { result ≡ upper_limit option }
{
    Limit {
        x: option.x,
        y: option.y,
        bound: option.hi,
    }
}

/// Event `y` of the option comes at least its lower bound before `x`.
fn lower_limit(option: Disjunct) -> Limit
    requires { in_range (neg_ℤ option.lo) ≡ true }
    ensures { result ≡ lower_limit option }
{
    Limit {
        x: option.y,
        y: option.x,
        bound: -option.lo,
    }
}

/// Puts the limits of the option on, or neither where no timetable meets them with the others.
fn push_option<N: Network>(network: &mut N, option: Disjunct) -> Result<(), Refusal>
    requires lawful { AllByRecursion (Lawful (N.Network.net network.old).day) (choice_limits (Choice.option option)) }
    requires room { length (N.Network.net network.old).limits + 2 ≤ max_limits }
    ensures { Put (N.Network.net network.old) (choice_limits (Choice.option option)) result (N.Network.net network.new) }
{
    network.push(upper_limit(option))?;
    if let Err(refusal) = network.push(lower_limit(option)) {
        network.pop().unwrap();
        return Err(refusal);
    }
    Ok(())
}

/// Takes the limits of the choice of rule `i` off, where they are the newest.
fn take_off<N: Network>(network: &mut N, selection: Selection, i: usize)
    requires more { i < length selection.choices.now }
    requires stands { Stands selection (i + 1) (N.Network.net network.old) }
    ensures { Stands selection.entry i (N.Network.net network.new) }
{
    if selection.option(i).is_some() {
        network.pop().unwrap();
        network.pop().unwrap();
    }
}

impl<W, N: Network> Cursor<'_, W, N> {
    /// Loads the choice of rule `i`, unless it is loaded. Refuses where no timetable meets it with those before it.
    pub(crate) fn load(&mut self, selection: Selection, i: usize) -> Result<(), Refusal>
        requires more { i < length selection.choices.now }
        requires next { i ≤ self.old.depth }
        requires stands { Stands selection self.old.depth (N.Network.net self.old.network.now) }
        ensures stands { Stands selection.entry self.new.depth (N.Network.net self.new.network.now) }
        ensures cases { MatchResult result (λ _. i < self.new.depth) (λ _. Feasible selection.entry.problem.now.day (rules_in selection.entry) (take (i + 1) selection.entry.choices.now) → ⊥) }
        ensures depth { MatchResult result (λ _. self.new.depth ≡ max (i + 1) self.old.depth) (λ _. self.new.depth ≡ max i self.old.depth) }
        ensures best { self.new.best ≡ self.old.best }
    {
        if i < self.depth {
            return Ok(());
        }
        if let Some(option) = selection.option(i) {
            push_option(self.network, option)?;
        }
        self.depth = i + 1;
        Ok(())
    }

    /// Takes off all but the limits of the first `to` choices.
    pub(crate) fn unload(&mut self, selection: Selection, to: usize)
        requires stands { Stands selection self.old.depth (N.Network.net self.old.network.now) }
        ensures stands { Stands selection.entry self.new.depth (N.Network.net self.new.network.now) }
        ensures depth { self.new.depth ≡ min self.old.depth to }
        ensures best { self.new.best ≡ self.old.best }
    {
        for i in (to..self.depth).rev() {
            take_off(self.network, selection, i);
            self.depth = i;
        }
    }
}
