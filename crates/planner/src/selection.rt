//! A choice for each rule of a problem.
ghost use Rattle.std.specs.Prelude.{◌≡◌, true};
ghost use Rattle.problem.specs.Problems.{rules_of};
ghost use Rattle.search.specs.Tests.{selects};

use problem::Problem;

/// A problem, and the number of a choice for each of its rules.
#[derive(Clone, Copy)]
pub(crate) struct Selection<'a> {
    pub(crate) problem: &'a Problem,
    pub(crate) choices: &'a [u8],
    ghost selected: { selects (rules_of problem.now) choices.now ≡ true },
}
