//! A day, and the minutes that a timetable may give to its events.
ghost use Rattle.std.specs.Prelude.{◌≤◌};
ghost use Rattle.problem.specs.Bounds.{max_events, max_horizon};

pub mod calls;

/// The most events of a day.
pub const MAX_EVENTS: usize = 32;

/// The latest horizon, in minutes: that of a week.
pub const MAX_HORIZON: u32 = 10_080;

/// A day: so many events, numbered from 0, and the last minute of it. Event 0 is the start of duty.
#[derive(Clone, Copy)]
pub struct Day {
    events: usize,
    horizon: u32,
    ghost some: { 1 ≤ events },
    ghost few: { events ≤ max_events },
    ghost week: { horizon ≤ max_horizon },
}
