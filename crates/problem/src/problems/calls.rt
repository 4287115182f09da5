//! How a problem is made and changed, and what it tells.
ghost use Rattle.std.specs.Prelude.{◌≡◌, [], ◌∷◌, ◌++◌, map, IfOk, MatchResult};
ghost use Rattle.std.specs.Option.{option_map};
ghost use Rattle.std.specs.Result.{result_err};
ghost use Rattle.std.specs.List.{remove};
ghost use Rattle.problem.specs.Checks.{first_refusal};
ghost use Rattle.problem.specs.Rules.{rule_of};
ghost use Rattle.problem.specs.Problems.{MadeOf, rules_of, set_checks, adopt_checks, drop_checks};

use crate::checks::check_rule;
use crate::constraint::Constraint;
use crate::day::Day;
use crate::problems::{MAX_RULES, Problem, Unadopted};
use crate::refusal::Refusal;
use std::alloc::{AllocError, Global};

impl Problem {
    /// The problem of one event, horizon 0 and no rules. Fails only for want of memory; no other call does.
    pub fn new(heap: Global) -> Result<Problem, AllocError>
        ensures { IfOk result (λ problem. MadeOf 1 0 [] problem) }
    {
        Ok(Problem {
            day: Day::single(),
            rules: Vec::with_capacity(heap, MAX_RULES)?,
        })
    }

    /// Fixes the day. Refuses with 1 (events), 2 (horizon), then 3 while rules stand; the problem then stays.
    pub fn set(&mut self, events: usize, horizon: u32) -> Result<(), Refusal>
        ensures refused { result_err result ≡ first_refusal (set_checks self.old events horizon) }
        ensures cases { MatchResult result (λ _. MadeOf events horizon [] self.new) (λ _. self.new ≡ self.old) }
    {
        let day = Day::new(events, horizon)?;
        if !self.rules.is_empty() {
            return Err(Refusal::RulesStand);
        }
        self.day = day;
        Ok(())
    }

    /// Whether the rule may be put last.
    fn check_adoption(&self, rule: &Constraint) -> Result<(), Refusal>
        ensures { result_err result ≡ first_refusal (adopt_checks self.now (rule_of rule.now)) }
    {
        if self.rules.len() >= MAX_RULES {
            return Err(Refusal::RuleCount);
        }
        check_rule(self.day, rule)
    }

    /// Puts a rule last. Refuses with 4 where 32 rules stand, then as `check_rule` does; the rule is then handed back
    /// and the problem stays.
    pub fn adopt(&mut self, rule: Constraint) -> Result<(), Unadopted>
        ensures refused { option_map (λ e. e.refusal) (result_err result) ≡ first_refusal (adopt_checks self.old (rule_of rule)) }
        ensures day { self.new.day ≡ self.old.day }
        ensures cases { MatchResult result (λ _. rules_of self.new ≡ rules_of self.old ++ rule_of rule ∷ []) (λ e. (e.rule ≡ rule) × (self.new ≡ self.old)) }
    {
        if let Err(refusal) = self.check_adoption(&rule) {
            return Err(Unadopted { refusal, rule });
        }
        self.rules.push_reserved(rule);
        Ok(())
    }

    /// Takes out the rule of this number, counted from 0; later rules move down by one. Refuses with 9 where there is no
    /// such rule; the problem then stays.
    pub fn drop(&mut self, number: usize) -> Result<(), Refusal>
        ensures refused { result_err result ≡ first_refusal (drop_checks (rules_of self.old) number) }
        ensures day { self.new.day ≡ self.old.day }
        ensures cases { MatchResult result (λ _. rules_of self.new ≡ remove (rules_of self.old) number) (λ _. self.new ≡ self.old) }
    {
        if number >= self.rules.len() {
            return Err(Refusal::NoSuchRule);
        }
        let _ = self.rules.remove(number);
        Ok(())
    }

    /// The day.
    pub fn day(&self) -> Day
        ensures { result ≡ self.now.day }
    {
        self.day
    }

    /// The rules, in their order.
    pub fn rules(&self) -> &[Constraint]
        ensures { map rule_of result.now ≡ rules_of self.now }
    {
        self.rules.as_slice()
    }
}
