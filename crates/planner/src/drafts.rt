//! The calls on a draft.
ghost use Rattle.std.specs.Prelude.{◌≡◌, [], ◌∷◌, ◌++◌, ◌≤◌, map, replicate, IfOk, MatchResult};
ghost use Rattle.std.specs.Option.{option_map};
ghost use Rattle.std.specs.Result.{result_err};
ghost use Rattle.std.specs.List.{remove};
ghost use Rattle.problem.specs.Bounds.{max_rules};
ghost use Rattle.problem.specs.Checks.{first_refusal};
ghost use Rattle.problem.specs.Rules.{rule_of};
ghost use Rattle.problem.specs.Problems.{MadeOf, rules_of, set_checks, adopt_checks, drop_checks};
ghost use Rattle.search.specs.Searches.{Start};
ghost use Rattle.planner.specs.Views.{search_state};

use crate::progress::{Choices, Progress};
use crate::states::{Draft, Search};
use counting::Counting;
use network::Network;
use problem::{Constraint, Day, MAX_RULES, Problem, Refusal, Unadopted};
use std::alloc::{AllocError, Global};
use std::marker::PhantomData;

/// The first choices of so many rules.
fn first_choices(rules: usize) -> Choices
    requires { rules ≤ max_rules }
    ensures { result.items ≡ replicate rules 0 }
{
    let mut choices = Choices::from([0; MAX_RULES]);
    choices.truncate(rules);
    choices
}

impl<N: Network> Draft<N> {
    /// The draft of one event, horizon 0 and no rules. Takes all the memory that the planner will need, and is the only
    /// call that can fail for want of it.
    pub fn new(heap: Global, network: N) -> Result<Draft<N>, AllocError>
    where
        N: Drop,
        ensures { IfOk result (λ draft. MadeOf 1 0 [] draft.problem) }
    {
        Ok(Draft {
            problem: Problem::new(heap)?,
            network,
        })
    }

    /// Fixes the day. Refuses with 1 (events), 2 (horizon), then 3 while rules stand; the draft then stays.
    pub fn set(&mut self, events: usize, horizon: u32) -> Result<(), Refusal>
        ensures refused { result_err result ≡ first_refusal (set_checks self.old.problem events horizon) }
        ensures cases { MatchResult result (λ _. MadeOf events horizon [] self.new.problem) (λ _. self.new ≡ self.old) }
    {
        self.problem.set(events, horizon)
    }

    /// Puts a rule last. Refuses with 4 (number of rules), 5 (number of options), 8 (giving up), then for each option with
    /// 6 (events), 7 (bounds), 8 (penalty); the rule is then handed back and the draft stays.
    pub fn adopt(&mut self, rule: Constraint) -> Result<(), Unadopted>
        ensures refused { option_map (λ e. e.refusal) (result_err result) ≡ first_refusal (adopt_checks self.old.problem (rule_of rule)) }
        ensures day { self.new.problem.day ≡ self.old.problem.day }
        ensures cases { MatchResult result (λ _. rules_of self.new.problem ≡ rules_of self.old.problem ++ rule_of rule ∷ []) (λ e. (e.rule ≡ rule) × (self.new ≡ self.old)) }
    {
        self.problem.adopt(rule)
    }

    /// Takes out the rule of this number, counted from 0; later rules move down by one. Refuses with 9 where there is no
    /// such rule; the draft then stays.
    pub fn drop(&mut self, number: usize) -> Result<(), Refusal>
        ensures refused { result_err result ≡ first_refusal (drop_checks (rules_of self.old.problem) number) }
        ensures day { self.new.problem.day ≡ self.old.problem.day }
        ensures cases { MatchResult result (λ _. rules_of self.new.problem ≡ remove (rules_of self.old.problem) number) (λ _. self.new ≡ self.old) }
    {
        self.problem.drop(number)
    }

    /// Turns the draft into a search of its day and rules under a way of counting, with nothing settled and no plan.
    pub fn close<W: Counting>(self) -> Search<W, N>
        ensures problem { result.problem ≡ self.problem }
        ensures start { Start W.Counting.way result.problem.day (rules_of result.problem) (search_state result) }
    {
        let Draft { problem, network } = self;
        let progress = Progress {
            position: Some(first_choices(problem.rules().len())),
            plan: None,
        };
        Search {
            problem,
            progress,
            network,
            way: PhantomData,
        }
    }

    /// The day.
    pub fn day(&self) -> Day
        ensures { result ≡ self.now.problem.day }
    {
        self.problem.day()
    }

    /// The rules, in their order.
    pub fn rules(&self) -> &[Constraint]
        ensures { map rule_of result.now ≡ rules_of self.now.problem }
    {
        self.problem.rules()
    }
}
