//! Why a call is refused. Each refusal has a number, by which it is printed.
ghost use Rattle.std.specs.Prelude.{◌≡◌, Some};
ghost use Rattle.std.specs.Fmt.{decimal};
ghost use Rattle.problem.specs.Refusals.{refusal_number};

use std::fmt;

/// The refusals of all calls.
#[derive(Clone, Copy, PartialEq, Eq, Debug)]
pub enum Refusal {
    /// The day has not 1 to 32 events.
    EventCount = 1,
    /// The horizon is not 0 to 10,080 minutes.
    HorizonRange,
    /// The day cannot change while rules stand.
    RulesStand,
    /// There are 32 rules already.
    RuleCount,
    /// The rule has not 1 to 8 options.
    DisjunctCount,
    /// An event is not of the day, or one event is named twice.
    EventPair,
    /// A bound is not -10,080 to 10,080, or the lower is above the upper.
    BoundRange,
    /// More than 9 breaches, or more than 1,000,000 points.
    PenaltyRange,
    /// There is no such rule.
    NoSuchRule,
    /// A press is not of 1 to 100,000 steps.
    PressRange,
    /// No plan is kept.
    NoPlan,
    /// There is no such event.
    NoSuchEvent,
    /// There are 64 limits already.
    LimitCount,
    /// No timetable of the day meets all limits.
    Clash,
    /// There is no limit to take off.
    NoLimit,
    /// The text has not 1 to 16,384 bytes.
    TextSize,
    /// A line's first field, or a rule's letter, is unknown or out of place.
    LineKind,
    /// The line has too few or too many fields.
    FieldCount,
    /// A number is ill formed.
    NumberForm,
    /// A line feed or the end of the book is missing, or bytes follow that end.
    TextEnd,
    /// There is no such way of counting.
    UnknownWay,
    /// The book's steps are not 1 to 100,000,000.
    StepLimit,
    /// The buffer for the answer has fewer than 1,024 bytes.
    BufferSize,
}

impl Refusal {
    /// The refusal's number, from 1 to 23.
    pub fn number(self) -> u32
        ensures { result ≡ refusal_number self }
    {
        self as u32
    }
}

impl fmt::Display for Refusal {
    ghost output = { λ refusal. Some (decimal (refusal_number refusal)) };

    fn fmt<W: fmt::Write>(&self, f: &mut fmt::Formatter<W>) -> fmt::Result {
        write!(f, "{}", self.number())
    }
}
