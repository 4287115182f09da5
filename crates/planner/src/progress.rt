//! How far a search is.
ghost use Rattle.std.specs.Prelude.{◌≡◌, true};
ghost use Rattle.problem.specs.Problems.{rules_of};
ghost use Rattle.search.specs.Tests.{selects};
ghost use Rattle.planner.specs.Calls.{word_of};

use crate::selection::Selection;
use arrayvec::ArrayVec;
use problem::{MAX_EVENTS, MAX_RULES, Problem};
use search::Word;

/// The number of a choice for each rule, in rule order.
pub(crate) type Choices = ArrayVec<u8, MAX_RULES>;

/// A selection that is kept, with the smallest minute of each event under it.
#[derive(Drop)]
pub(crate) struct Plan {
    pub(crate) choices: Choices,
    pub(crate) minutes: ArrayVec<u32, MAX_EVENTS>,
}

/// Where a search is: every selection before `position` is settled, and all are where there is none.
#[derive(Drop)]
pub(crate) struct Progress {
    pub(crate) position: Option<Choices>,
    pub(crate) plan: Option<Plan>,
}

impl Plan {
    /// The selection that is kept, of the rules of the problem.
    pub(crate) fn selection<'a>(&'a self, problem: &'a Problem) -> Selection<'a>
        requires { selects (rules_of problem.now) self.now.choices.items ≡ true }
        ensures problem { result.problem.now ≡ problem.now }
        ensures choices { result.choices.now ≡ self.now.choices.items }
    {
        Selection {
            problem,
            choices: &self.choices,
        }
    }
}

impl Progress {
    /// By whether the search has ended, and whether a plan is kept.
    pub(crate) fn word(&self) -> Word
        ensures { result ≡ word_of self.now.position self.now.plan }
    {
        match (&self.position, &self.plan) {
            (Some(_), None) => Word::Open,
            (Some(_), Some(_)) => Word::Short,
            (None, None) => Word::None,
            (None, Some(_)) => Word::Proved,
        }
    }
}
