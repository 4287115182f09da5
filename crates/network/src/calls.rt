//! The four calls on a network.
ghost use Rattle.std.specs.Prelude.{◌≡◌, MatchResult};
ghost use Rattle.std.specs.Result.{result_err};
ghost use Rattle.problem.specs.Checks.{first_refusal, day_checks};
ghost use Rattle.network.specs.Calls.{Emptied, Pushed, Popped, Asked};
ghost use Rattle.network.specs.Nets.{Net, Sound};

use crate::limit::Limit;
use problem::Refusal;

/// A simple temporal network: a day and a list of limits that some timetable of the day meets. Its ghost member says
/// which day and which limits, and its law that they are lawful and can be met.
pub trait Network {
    ghost net: { Self → Net };

    /// Takes the day of so many events and this horizon, with no limits. Refuses with 1 (events), then 2 (horizon).
    fn reset(&mut self, events: usize, horizon: u32) -> Result<(), Refusal>
        ensures refused { result_err result ≡ first_refusal (day_checks events horizon) }
        ensures cases { MatchResult result (λ _. Emptied events horizon (net self.new)) (λ _. net self.new ≡ net self.old) };

    /// Puts the limit on. Refuses with 6 (events), 7 (bound), 13 (number of limits), then with 14 exactly when no
    /// timetable of the day meets the longer list.
    fn push(&mut self, limit: Limit) -> Result<(), Refusal>
        ensures { Pushed (net self.old) limit result (net self.new) };

    /// Takes the newest limit off. Refuses with 15 where there is none.
    fn pop(&mut self) -> Result<(), Refusal>
        ensures { Popped (net self.old) result (net self.new) };

    /// The smallest minute that any timetable which meets the list gives to the event. Refuses with 12 where the day
    /// has no such event.
    fn earliest(&self, event: usize) -> Result<u32, Refusal>
        ensures { Asked (net self.now) event result };

    ghost sound: { (network : Self) → Sound (net network) };
}
