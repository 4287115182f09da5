//! How a day is made, and what it tells.
ghost use Rattle.std.specs.Prelude.{◌≡◌, IfOk};
ghost use Rattle.std.specs.Result.{result_err};
ghost use Rattle.problem.specs.Checks.{first_refusal, day_checks, two_events};

use crate::day::{Day, MAX_EVENTS, MAX_HORIZON};
use crate::refusal::Refusal;

impl Day {
    /// The day of so many events and this horizon. Refuses with 1 (events), then 2 (horizon).
    pub fn new(events: usize, horizon: u32) -> Result<Day, Refusal>
        ensures refused { result_err result ≡ first_refusal (day_checks events horizon) }
        ensures events { IfOk result (λ day. day.events ≡ events) }
        ensures horizon { IfOk result (λ day. day.horizon ≡ horizon) }
    {
        if !(1..=MAX_EVENTS).contains(&events) {
            return Err(Refusal::EventCount);
        }
        if horizon > MAX_HORIZON {
            return Err(Refusal::HorizonRange);
        }
        Ok(Day { events, horizon })
    }

    /// The day of one event and horizon 0.
    pub fn single() -> Day
        ensures events { result.events ≡ 1 }
        ensures horizon { result.horizon ≡ 0 }
    {
        Day {
            events: 1,
            horizon: 0,
        }
    }

    /// How many events the day has.
    pub fn events(self) -> usize
        ensures { result ≡ self.events }
    {
        self.events
    }

    /// Whether these are two different events of the day.
    pub fn has_pair(self, x: usize, y: usize) -> bool
        ensures { result ≡ two_events self x y }
    {
        x < self.events && y < self.events && x != y
    }

    /// The last minute of the day.
    pub fn horizon(self) -> u32
        ensures { result ≡ self.horizon }
    {
        self.horizon
    }
}
