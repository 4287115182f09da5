//! The calls on a search.
ghost use Rattle.std.specs.Prelude.{◌≡◌, map, IfOk, MatchResult};
ghost use Rattle.std.specs.Result.{result_err};
ghost use Rattle.problem.specs.Checks.{first_refusal};
ghost use Rattle.problem.specs.Rules.{rule_of};
ghost use Rattle.problem.specs.Problems.{rules_of};
ghost use Rattle.search.specs.Outcomes.{Tells};
ghost use Rattle.planner.specs.Calls.{press_checks, read_checks, Reads};
ghost use Rattle.planner.specs.Stepping.{Pressed};
ghost use Rattle.planner.specs.Views.{search_state};

use crate::outcome::Outcome;
use crate::states::{Draft, Search};
use crate::step::run;
use counting::Counting;
use network::Network;
use problem::{Constraint, Day, Refusal};

/// The most steps of one press.
pub const MAX_PRESS: u32 = 100_000;

impl<W: Counting, N: Network> Search<W, N> {
    /// Moves the search on in place by so many steps, or fewer if it ends first, and says how many were made: none on a
    /// search that has ended. Refuses with 10 unless asked for 1 to 100,000 steps; the search then stays.
    pub fn press(&mut self, steps: u32) -> Result<u32, Refusal>
        ensures refused { result_err result ≡ first_refusal (press_checks steps) }
        ensures problem { self.new.problem ≡ self.old.problem }
        ensures cases { MatchResult result (λ made. Pressed W.Counting.way self.old.problem.day (rules_of self.old.problem) (search_state self.old) steps made (search_state self.new)) (λ _. self.new ≡ self.old) }
    {
        if !(1..=MAX_PRESS).contains(&steps) {
            return Err(Refusal::PressRange);
        }
        let made = run::<W, N>(&self.problem, &mut self.progress, &mut self.network, steps);
        Ok(made)
    }

    /// Tells how far the search is, what its plan costs and which rules the plan gives up.
    pub fn outcome(&self) -> Outcome<W>
        ensures { Tells W.Counting.way (rules_of self.now.problem) (search_state self.now) result.word result.cost result.given }
    {
        let word = self.progress.word();
        let Some(plan) = &self.progress.plan else {
            return Outcome {
                word,
                cost: W::ZERO,
                given: 0,
            };
        };
        let selection = plan.selection(&self.problem);
        Outcome {
            word,
            cost: selection.price(),
            given: selection.given_up(),
        }
    }

    /// The smallest minute of the event over the timetables that meet the plan. Refuses with 11 without a plan, then with
    /// 12 where the day has no such event.
    pub fn read(&self, event: usize) -> Result<u32, Refusal>
        ensures refused { result_err result ≡ first_refusal (read_checks self.now.problem.day (search_state self.now) event) }
        ensures minute { IfOk result (λ t. Reads self.now.problem.day (rules_of self.now.problem) (search_state self.now) event t) }
    {
        let plan = self.progress.plan.as_ref().ok_or(Refusal::NoPlan)?;
        plan.minutes.get(event).copied().ok_or(Refusal::NoSuchEvent)
    }

    /// Turns the search back into a draft of its day and rules; its progress is lost.
    pub fn reopen(self) -> Draft<N>
        ensures { result.problem ≡ self.problem }
    {
        let Search {
            problem,
            progress: _,
            network,
            way: _,
        } = self;
        Draft { problem, network }
    }

    /// The day.
    pub fn day(&self) -> Day
        ensures { result ≡ self.now.problem.day }
    {
        self.problem.day()
    }

    /// The rules, in their order.
    pub fn rules(&self) -> &[Constraint]
        ensures { map rule_of result.now ≡ rules_of self.now.problem }
    {
        self.problem.rules()
    }
}
