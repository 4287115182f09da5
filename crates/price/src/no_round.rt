//! Why a line states no round of the day.
use problem::{Day, Flaw};
use std::fmt;

/// Why a line states no round of the day.
#[derive(Clone, Copy)]
pub(crate) enum NoRound {
    TooLong,
    Empty,
    /// The text for the minute of this event is no number.
    NotANumber { event: usize },
    /// Its minutes are no timetable of the day.
    NoTimetable { day: Day, flaw: Flaw },
}

impl fmt::Display for NoRound {
    fn fmt<W: fmt::Write>(&self, f: &mut fmt::Formatter<W>) -> fmt::Result {
        match self {
            NoRound::TooLong => write!(f, "it is too long"),
            NoRound::Empty => write!(f, "it is empty"),
            NoRound::NotANumber { event } => write!(f, "the minute of event {event} is no number"),
            NoRound::NoTimetable { day, flaw } => write_flaw(f, *day, *flaw),
        }
    }
}

/// Writes why minutes are no timetable of the day.
fn write_flaw<W: fmt::Write>(f: &mut fmt::Formatter<W>, day: Day, flaw: Flaw) -> fmt::Result {
    let events = day.events();
    let horizon = day.horizon();
    match flaw {
        Flaw::Count => write!(
            f,
            "the day has {events} events, the line another number of minutes"
        ),
        Flaw::Start => write!(f, "event 0 is not at minute 0"),
        Flaw::Late { event } => write!(f, "event {event} is after the horizon, minute {horizon}"),
    }
}
