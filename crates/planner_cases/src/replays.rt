//! Lists of calls: the book of the example by calls alone, the second time with its rules in another order.
use counting::{Counting, Sum};
use example::example_rules;
use histories::{Answer, Call, History, Rejection, Reply, replay_both};
use list_network::ListNetwork;
use problem::{Constraint, Refusal};
use search::Word;
use square_network::SquareNetwork;
use std::alloc::{AllocError, Global};
use std::process::Abort;
use std::test::Fail;

/// The calls that write these rules on the example's day, press the book to its end, ask for all that it tells, and
/// make a misplaced call.
fn calls(heap: Global, rules: [Constraint; 3]) -> Result<Vec<Call>, AllocError> {
    let mut calls = Vec::new(heap);
    calls.push(Call::Set {
        events: 3,
        horizon: 60,
    })?;
    for rule in rules {
        calls.push(Call::Adopt(rule))?;
    }
    calls.push(Call::Close)?;
    calls.push(Call::Press(0))?;
    calls.push(Call::Press(100_000))?;
    calls.push(Call::Outcome)?;
    calls.push(Call::Read(1))?;
    calls.push(Call::Close)?;
    Ok(calls)
}

/// There are ten answers, and those from the first `Close` on are those of the example.
fn answers_are_of_the_example(rt: &impl Abort, answers: &[Answer<Sum>]) {
    assert_eq!(rt; answers.len(), 10);
    assert!(rt; matches!(&answers[4], Ok(Reply::Done)));
    assert!(rt; matches!(&answers[5], Err(Rejection::Refused(Refusal::PressRange))));
    assert!(rt; matches!(&answers[6], Ok(Reply::Stepped(_))));
    let Ok(Reply::Told(outcome)) = &answers[7] else {
        panic!(rt; "the outcome is told");
    };
    assert_eq!(rt; outcome.word, Word::Proved);
    assert_eq!(rt; outcome.cost.shown().second, 10);
    assert_eq!(rt; outcome.given, 0);
    assert!(rt; matches!(&answers[8], Ok(Reply::Minute(15))));
    assert!(rt; matches!(&answers[9], Err(Rejection::Misplaced(Call::Close))));
}

#[test]
fn two_orders_of_the_example_tell_the_same(rt: HostRuntime) -> Result<(), Fail> {
    let heap = rt.alloc();
    let first = History {
        network: ListNetwork::new(),
        calls: calls(heap, example_rules(heap)?)?,
    };
    let [apart, second_soon, first_soon] = example_rules(heap)?;
    let second = History {
        network: SquareNetwork::new(heap)?,
        calls: calls(heap, [second_soon, apart, first_soon])?,
    };
    let both = replay_both::<Sum, ListNetwork, SquareNetwork>(heap, first, second)?;
    answers_are_of_the_example(&rt, &both.first.answers);
    answers_are_of_the_example(&rt, &both.second.answers);
    Ok(())
}
