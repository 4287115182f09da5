//! Making whole lists of calls.
ghost use Rattle.std.specs.Prelude.{IfOk};
ghost use Rattle.histories.specs.Histories.{Made};
ghost use Rattle.histories.specs.Promises.{Trusted, Agreeing};
ghost use Rattle.histories.specs.Views.{view_of};

use crate::calls::{Answer, Call};
use crate::planners::Planner;
use counting::Counting;
use network::Network;
use planner::Draft;
use std::alloc::{AllocError, Global};

/// A list of calls, and the network over which to make them.
#[derive(Drop)]
pub struct History<N> {
    pub network: N,
    pub calls: Vec<Call>,
}

/// A planner after a list of calls, with their answers in order.
#[derive(Drop)]
pub struct Replayed<W, N> {
    pub planner: Planner<W, N>,
    pub answers: Vec<Answer<W>>,
}

/// Two planners after two lists of calls.
#[derive(Drop)]
pub struct Both<W, M, N> {
    pub first: Replayed<W, M>,
    pub second: Replayed<W, N>,
}

/// Makes the calls in order on a new planner. The planner and the answers are those that the meaning of the calls makes
/// of the list, and a search that it ends in can be trusted.
pub fn replay<W: Counting, N: Network + Drop>(
    heap: Global,
    history: History<N>,
) -> Result<Replayed<W, N>, AllocError>
    ensures history { IfOk result (λ x. Made W.Counting.way history.calls.items (view_of x.planner) x.answers.items) }
    ensures trusted { IfOk result (λ x. Trusted W.Counting.way (view_of x.planner)) }
{
    let History { network, calls } = history;
    let mut planner: Planner<W, N> = Planner::Draft(Draft::new(heap, network)?);
    let mut answers = Vec::new(heap);
    for call in calls {
        match planner.apply_in_place(call) {
            Ok(answer) => answers.push(answer)?,
            Err(call) => {
                let (next, answer) = planner.apply(call);
                planner = next;
                answers.push(answer)?;
            }
        }
    }
    Ok(Replayed { planner, answers })
}

/// Makes two lists of calls on two new planners, over two networks of any make and under one way of counting. Each
/// planner and all answers are those that the meaning of the calls makes of its list; a search that a planner ends in can
/// be trusted; and two ended searches of equal days and the same rules, each as often, in any order, tell the same.
pub fn replay_both<W: Counting, M: Network + Drop, N: Network + Drop>(
    heap: Global,
    first: History<M>,
    second: History<N>,
) -> Result<Both<W, M, N>, AllocError>
    ensures first { IfOk result (λ x. Made W.Counting.way first.calls.items (view_of x.first.planner) x.first.answers.items) }
    ensures second { IfOk result (λ x. Made W.Counting.way second.calls.items (view_of x.second.planner) x.second.answers.items) }
    ensures trusted { IfOk result (λ x. Trusted W.Counting.way (view_of x.first.planner) × Trusted W.Counting.way (view_of x.second.planner)) }
    ensures agreeing { IfOk result (λ x. Agreeing W.Counting.way (view_of x.first.planner) (view_of x.second.planner)) }
{
    let first = replay(heap, first)?;
    let second = replay(heap, second)?;
    Ok(Both { first, second })
}
