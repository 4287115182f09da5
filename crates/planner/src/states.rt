//! The two states of a planner: a draft, to which rules are put, and a search, which is pressed.
ghost use Rattle.problem.specs.Problems.{rules_of};
ghost use Rattle.planner.specs.Facts.{SoundProgress};
ghost use Rattle.std.proofs.Props.{props};

use crate::progress::Progress;
use problem::Problem;
use std::marker::PhantomData;

/// A draft: a day and rules that can be changed, and the network that a search will use.
#[derive(Drop)]
pub struct Draft<N> {
    pub(crate) problem: Problem,
    pub(crate) network: N,
}

/// A search: a day and rules that are fixed, a way of counting, and how far the search is. Between presses it holds plain
/// data; the network is loaded anew at each press.
#[derive(Drop)]
pub struct Search<W, N> {
    pub(crate) problem: Problem,
    pub(crate) progress: Progress,
    pub(crate) network: N,
    pub(crate) way: PhantomData<W>,
    ghost sound: { SoundProgress problem.day (rules_of problem) progress } by { Prim.hlevel props },
}
