//! Prices rounds: reads one round a line from standard input, and prints what each costs under each way of counting.
#![tactic(auto)]

use crate::pricing::{Forbidden, Price, Prices, Unpriced, price_round};
use example::example_problem;
use lines::{Line, read_lines};
use problem::Problem;
use rounds::RoundFault;

mod no_round;
mod pricing;

/// Prints what a line's round costs under one way of counting, or which rule forbids it.
fn print_price(rt: &HostRuntime, number: u64, way: &str, price: Price) -> anyhow::Result<()> {
    match price {
        Ok(cost) => println!(rt; "line {number}, {way}: {cost}")?,
        Err(Forbidden { rule }) => println!(rt; "line {number}, {way}: rule {rule} forbids it")?,
    }
    Ok(())
}

/// Prints what the line's round costs under each way of counting, or why the line states no round.
fn price_line(rt: &HostRuntime, problem: &Problem, line: &Line) -> anyhow::Result<()> {
    let number = line.number();
    match price_round(rt.alloc(), problem, line.text()) {
        Ok(Prices { sum, worst, tier }) => {
            print_price(rt, number, "SUM", sum)?;
            print_price(rt, number, "WORST", worst)?;
            print_price(rt, number, "TIER", tier)?;
        }
        Err(Unpriced::NoRound(reason)) => println!(rt; "line {number}: no round: {reason}")?,
        Err(Unpriced::NoMemory) => return Err(RoundFault::NoMemory.into()),
    }
    Ok(())
}

/// Prices every line of standard input against the example.
fn run(rt: &HostRuntime) -> anyhow::Result<()> {
    let problem = example_problem(rt.alloc())?;
    for line in read_lines(rt) {
        price_line(rt, &problem, &line?)?;
    }
    Ok(())
}

fn main(rt: HostRuntime) -> anyhow::Result<()> {
    run(&rt)
}
