//! Presses: one step at a time and many at once, refusals, and what is told on the way.
use crate::bench::{Bench, Told, benches};
use counting::Sum;
use example::{gap, wish};
use network::Network;
use planner::Search;
use problem::{Kind, Refusal};
use search::Word;
use std::process::Abort;
use std::test::Fail;

/// A word and a cost in points, with nothing given up.
fn word(word: Word, points: u32) -> Told {
    Told::new(word, 0, points, 0)
}

/// The six steps of the example, one at a time.
fn step_by_step<A: Abort, N: Network + Drop>(mut bench: Bench<A, N>) -> Result<(), Fail> {
    bench.example()?;
    let Bench { rt, draft, .. } = bench;
    let mut search: Search<Sum, N> = draft.close();
    assert_eq!(rt; Told::by(&search), word(Word::Open, 0));
    assert_eq!(rt; search.read(0), Err(Refusal::NoPlan));
    assert_eq!(rt; search.press(1), Ok(1));
    assert_eq!(rt; Told::by(&search), word(Word::Open, 0));
    for _ in 0..4 {
        assert_eq!(rt; search.press(1), Ok(1));
        assert_eq!(rt; Told::by(&search), word(Word::Short, 10));
        assert_eq!(rt; search.read(1), Ok(15));
    }
    assert_eq!(rt; search.press(1), Ok(1));
    assert_eq!(rt; Told::by(&search), word(Word::Proved, 10));
    assert_eq!(rt; search.press(1), Ok(0));
    assert_eq!(rt; search.read(0), Ok(0));
    assert_eq!(rt; search.read(2), Ok(0));
    assert_eq!(rt; search.read(3), Err(Refusal::NoSuchEvent));
    Ok(())
}

/// A wish whose dearer option is stated first: the first plan is not the best.
fn dearer_first<A: Abort, N: Network + Drop>(mut bench: Bench<A, N>) -> Result<(), Fail> {
    bench.day(2, 60)?;
    bench.wish(9, &[gap(1, 0, 0, 10, 5), gap(1, 0, 0, 0, 0)])?;
    let Bench { rt, draft, .. } = bench;
    let mut search: Search<Sum, N> = draft.close();
    assert_eq!(rt; search.press(1), Ok(1));
    assert_eq!(rt; Told::by(&search), word(Word::Short, 5));
    assert_eq!(rt; search.read(0), Ok(0));
    assert_eq!(rt; search.read(1), Ok(0));
    assert_eq!(rt; search.press(100_000), Ok(2));
    assert_eq!(rt; Told::by(&search), word(Word::Proved, 0));
    assert_eq!(rt; search.read(0), Ok(0));
    assert_eq!(rt; search.read(1), Ok(0));
    Ok(())
}

/// Any split of the same steps leads to the same answers.
fn splits<A: Abort, N: Network + Drop>(mut bench: Bench<A, N>) -> Result<(), Fail> {
    bench.example()?;
    let Bench { rt, mut draft, .. } = bench;
    for first in 1..8u32 {
        let mut search: Search<Sum, N> = draft.close();
        assert_eq!(rt; search.press(first), Ok(first.min(6)));
        let there = Told::by(&search);
        let mut again: Search<Sum, N> = search.reopen().close();
        for _ in 0..first {
            again.press(1)?;
        }
        assert_eq!(rt; Told::by(&again), there);
        assert_eq!(rt; again.press(100_000), Ok(6 - first.min(6)));
        assert_eq!(rt; Told::by(&again), word(Word::Proved, 10));
        draft = again.reopen();
    }
    Ok(())
}

/// Refusals of calls on a draft or a search, all but two, and that the next call finds all as it was. `cases` has the
/// refusal of a rule after 32 (4) by a problem, and `step_by_step` that of an event that is not there (12).
fn refusals<A: Abort, N: Network + Drop>(mut bench: Bench<A, N>) -> Result<(), Fail> {
    let rt = bench.rt;
    assert_eq!(rt; bench.draft.drop(0), Err(Refusal::NoSuchRule));
    bench.example()?;
    assert_eq!(rt; bench.draft.set(33, 60), Err(Refusal::EventCount));
    assert_eq!(rt; bench.draft.set(3, 10_081), Err(Refusal::HorizonRange));
    assert_eq!(rt; bench.draft.set(3, 60), Err(Refusal::RulesStand));
    assert_eq!(rt; bench.adopt(Kind::Firm, &[])?, Err(Refusal::DisjunctCount));
    assert_eq!(rt;
        bench.adopt(Kind::Firm, &[gap(1, 1, 0, 5, 0)])?,
        Err(Refusal::EventPair)
    );
    assert_eq!(rt;
        bench.adopt(Kind::Firm, &[gap(1, 0, 6, 5, 0)])?,
        Err(Refusal::BoundRange)
    );
    assert_eq!(rt;
        bench.adopt(wish(1_000_001), &[gap(1, 0, 0, 5, 0)])?,
        Err(Refusal::PenaltyRange)
    );
    assert_eq!(rt; bench.draft.drop(3), Err(Refusal::NoSuchRule));
    let mut search: Search<Sum, N> = bench.draft.close();
    assert_eq!(rt; search.press(0), Err(Refusal::PressRange));
    assert_eq!(rt; search.press(100_001), Err(Refusal::PressRange));
    assert_eq!(rt; search.read(3), Err(Refusal::NoPlan));
    assert_eq!(rt; search.press(100_000), Ok(6));
    assert_eq!(rt; search.press(0), Err(Refusal::PressRange));
    assert_eq!(rt; Told::by(&search), word(Word::Proved, 10));
    Ok(())
}

#[test]
fn the_example_goes_step_by_step(rt: HostRuntime) -> Result<(), Fail> {
    let (list, square) = benches(&rt, rt.alloc())?;
    step_by_step(list)?;
    step_by_step(square)
}

#[test]
fn the_first_plan_may_be_dearer(rt: HostRuntime) -> Result<(), Fail> {
    let (list, square) = benches(&rt, rt.alloc())?;
    dearer_first(list)?;
    dearer_first(square)
}

#[test]
fn any_split_of_the_steps_is_the_same(rt: HostRuntime) -> Result<(), Fail> {
    let (list, square) = benches(&rt, rt.alloc())?;
    splits(list)?;
    splits(square)
}

#[test]
fn refused_calls_change_nothing(rt: HostRuntime) -> Result<(), Fail> {
    let (list, square) = benches(&rt, rt.alloc())?;
    refusals(list)?;
    refusals(square)
}
