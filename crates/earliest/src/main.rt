//! Runs calls on a list network and on a square network, one call a line of standard input, and prints each answer.
#![tactic(auto)]

use crate::reading::read_call;
use lines::{Line, read_lines};
use list_network::ListNetwork;
use network::Reply;
use problem::Refusal;
use square_network::SquareNetwork;

mod reading;

/// Both networks, on which every call is made.
#[derive(Drop)]
struct Pair {
    list: ListNetwork,
    square: SquareNetwork,
}

impl Pair {
    /// Makes the call that the line states on both networks, and prints their answer, or why the line states no call.
    fn answer(&mut self, rt: &HostRuntime, line: &Line) -> anyhow::Result<()> {
        let number = line.number();
        let call = match read_call(line.text()) {
            Ok(call) => call,
            Err(reason) => {
                println!(rt; "line {number}: no call: {reason}")?;
                return Ok(());
            }
        };
        let by_list = call.make(&mut self.list);
        let by_square = call.make(&mut self.square);
        report(rt, number, by_list)?;
        if by_list != by_square {
            println!(rt; "line {number}: the networks differ; the square network says:")?;
            report(rt, number, by_square)?;
        }
        Ok(())
    }
}

/// Prints what a network answers.
fn report(rt: &HostRuntime, number: u64, answer: Result<Reply, Refusal>) -> anyhow::Result<()> {
    match answer {
        Ok(Reply::Done) => println!(rt; "line {number}: done")?,
        Ok(Reply::Minute(minute)) => println!(rt; "line {number}: minute {minute}")?,
        Err(refusal) => println!(rt; "line {number}: refused {refusal}")?,
    }
    Ok(())
}

/// Makes every call of standard input on both networks.
fn run(rt: &HostRuntime) -> anyhow::Result<()> {
    let list = ListNetwork::new();
    let square = SquareNetwork::new(rt.alloc())?;
    let mut pair = Pair { list, square };
    for line in read_lines(rt) {
        pair.answer(rt, &line?)?;
    }
    Ok(())
}

fn main(rt: HostRuntime) -> anyhow::Result<()> {
    run(&rt)
}
