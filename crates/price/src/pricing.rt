//! What a round costs.
use crate::no_round::NoRound;
use costing::{Objection, cost_of};
use counting::{Counting, Shown, Sum, Tier, Worst};
use problem::Problem;
use rounds::{RoundFault, read_round};
use std::alloc::Global;

/// This firm rule forbids the round.
#[derive(Clone, Copy)]
pub(crate) struct Forbidden {
    pub(crate) rule: usize,
}

/// What a round costs under one way of counting, as shown.
pub(crate) type Price = Result<Shown, Forbidden>;

/// What a round costs under each way of counting.
#[derive(Clone, Copy)]
pub(crate) struct Prices {
    pub(crate) sum: Price,
    pub(crate) worst: Price,
    pub(crate) tier: Price,
}

/// Why a line has no prices.
#[derive(Clone, Copy)]
pub(crate) enum Unpriced {
    /// It states no round of the day.
    NoRound(NoRound),
    /// Memory ran out.
    NoMemory,
}

impl From<NoRound> for Unpriced {
    fn from(reason: NoRound) -> Unpriced {
        Unpriced::NoRound(reason)
    }
}

impl From<RoundFault> for Unpriced {
    fn from(fault: RoundFault) -> Unpriced {
        match fault {
            RoundFault::NotANumber { event } => Unpriced::NoRound(NoRound::NotANumber { event }),
            RoundFault::NoMemory => Unpriced::NoMemory,
        }
    }
}

/// What the minutes cost under one way of counting.
fn priced<W: Counting>(problem: &Problem, minutes: &[u32]) -> Result<Price, NoRound> {
    match cost_of::<W>(problem, minutes) {
        Ok(cost) => Ok(Ok(cost.shown())),
        Err(Objection::Forbidden { rule }) => Ok(Err(Forbidden { rule })),
        Err(Objection::NoTimetable(flaw)) => Err(NoRound::NoTimetable {
            day: problem.day(),
            flaw,
        }),
    }
}

/// What the round that a line states costs under each way of counting. The text is `None` where the line is overlong.
pub(crate) fn price_round(
    heap: Global,
    problem: &Problem,
    text: Option<&[u8]>,
) -> Result<Prices, Unpriced> {
    let text = text.ok_or(NoRound::TooLong)?;
    if text.is_empty() {
        return Err(NoRound::Empty.into());
    }
    let minutes = read_round(heap, text)?;
    Ok(Prices {
        sum: priced::<Sum>(problem, &minutes)?,
        worst: priced::<Worst>(problem, &minutes)?,
        tier: priced::<Tier>(problem, &minutes)?,
    })
}
