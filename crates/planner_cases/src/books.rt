//! The small books: how many steps their searches take, and what these tell.
use crate::bench::{Bench, Told, benches};
use counting::{Penalty, Sum, Tier, Worst};
use example::gap;
use network::Network;
use problem::{Kind, Refusal};
use search::Word;
use std::process::Abort;
use std::test::Fail;

/// PROVED, with this cost and these rules given up.
fn proved(first: u32, second: u32, given: u32) -> Told {
    Told::new(Word::Proved, first, second, given)
}

/// NONE.
fn none() -> Told {
    Told::new(Word::None, 0, 0, 0)
}

/// Books of firm rules.
fn firm<A: Abort, N: Network + Drop>(mut bench: Bench<A, N>) -> Result<(), Fail> {
    bench = bench.ends::<Sum>(1, proved(0, 0, 0), &[Ok(0)]);
    bench.day(2, 60)?;
    bench.firm(&[gap(1, 0, 5, 5, 0)])?;
    bench.firm(&[gap(1, 0, 6, 6, 0)])?;
    bench = bench.ends::<Sum>(1, none(), &[Err(Refusal::NoPlan), Err(Refusal::NoPlan)]);
    bench.day(2, 60)?;
    bench.firm(&[gap(1, 0, 60, 60, 0)])?;
    bench = bench.ends::<Sum>(
        1,
        proved(0, 0, 0),
        &[Ok(0), Ok(60), Err(Refusal::NoSuchEvent)],
    );
    bench.day(2, 60)?;
    bench.firm(&[gap(1, 0, 61, 61, 0)])?;
    bench = bench.ends::<Sum>(1, none(), &[]);
    bench.day(3, 60)?;
    bench.firm(&[gap(1, 2, 0, 0, 0)])?;
    bench.firm(&[gap(2, 0, 3, 9, 0)])?;
    bench = bench.ends::<Sum>(1, proved(0, 0, 0), &[Ok(0), Ok(3), Ok(3)]);
    bench.day(4, 60)?;
    bench.firm(&[gap(1, 2, 1, 60, 0)])?;
    bench.firm(&[gap(2, 3, 1, 60, 0)])?;
    bench.firm(&[gap(3, 1, 1, 60, 0)])?;
    bench.ends::<Sum>(1, none(), &[]);
    Ok(())
}

/// Books of wishes, under all three ways.
fn wishes<A: Abort, N: Network + Drop>(mut bench: Bench<A, N>) -> Result<(), Fail> {
    bench.day(2, 60)?;
    bench.wish(4, &[gap(1, 0, 10, 10, 0)])?;
    bench.wish(4, &[gap(1, 0, 10, 10, 0)])?;
    bench.wish(6, &[gap(1, 0, 0, 0, 0)])?;
    bench = bench.ends::<Sum>(7, proved(0, 6, 4), &[Ok(0), Ok(10)]);
    bench = bench.ends::<Worst>(8, proved(0, 4, 3), &[Ok(0), Ok(0)]);
    bench.day(2, 60)?;
    let breach = Penalty {
        breaches: 1,
        points: 0,
    };
    bench.adopt(Kind::Wish(breach), &[gap(1, 0, 0, 0, 0)])??;
    bench.wish(500, &[gap(1, 0, 10, 10, 0)])?;
    bench = bench.ends::<Tier>(3, proved(0, 500, 2), &[Ok(0), Ok(0)]);
    bench = bench.ends::<Sum>(4, proved(0, 0, 1), &[Ok(0), Ok(10)]);
    bench.day(2, 60)?;
    bench.wish(4, &[gap(1, 0, 0, 0, 0)])?;
    bench.wish(4, &[gap(1, 0, 0, 0, 0)])?;
    bench.ends::<Sum>(2, proved(0, 0, 0), &[Ok(0), Ok(0)]);
    Ok(())
}

#[test]
fn books_of_firm_rules_end_as_worked_out(rt: HostRuntime) -> Result<(), Fail> {
    let (list, square) = benches(&rt, rt.alloc())?;
    firm(list)?;
    firm(square)
}

#[test]
fn books_of_wishes_end_as_worked_out(rt: HostRuntime) -> Result<(), Fail> {
    let (list, square) = benches(&rt, rt.alloc())?;
    wishes(list)?;
    wishes(square)
}
