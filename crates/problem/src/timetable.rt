//! Whether minutes are a timetable of a day.
ghost use Rattle.std.specs.Prelude.{◌≡◌, ◌≤◌, length, MatchResult};
ghost use Rattle.problem.specs.Bounds.{max_horizon};
ghost use Rattle.problem.specs.Flaws.{Judged, Flawed};
ghost use Rattle.problem.specs.Timetables.{OfDay, minute};

use crate::day::Day;

/// Why minutes are no timetable of a day.
#[derive(Clone, Copy, PartialEq, Eq, Debug)]
pub enum Flaw {
    /// There is not one minute for each event of the day.
    Count,
    /// Event 0 is not at minute 0.
    Start,
    /// This event, the first such, comes after the horizon.
    Late { event: usize },
}

/// Whether the minutes, in the order of the events, are a timetable of the day. Looks for `Count`, then `Start`, then
/// the first event that is `Late`.
pub fn check_timetable(day: Day, minutes: &[u32]) -> Result<(), Flaw>
    ensures { Judged day minutes.now result }
{
    if minutes.len() != day.events() {
        return Err(Flaw::Count);
    }
    if minutes[0] != 0 {
        return Err(Flaw::Start);
    }
    match minutes.iter().position(|minute| *minute > day.horizon()) {
        Some(event) => Err(Flaw::Late { event }),
        None => Ok(()),
    }
}

/// The minutes of a day's events, in their order, that are a timetable of the day.
#[derive(Clone, Copy)]
pub struct Timetable<'a> {
    day: Day,
    minutes: &'a [u32],
    ghost count: { length minutes.now ≡ day.events },
    ghost of_day: { OfDay day (minute minutes.now) },
}

impl<'a> Timetable<'a> {
    /// The timetable of the day by these minutes. Refuses with their flaw, as `check_timetable` does.
    pub fn new(day: Day, minutes: &'a [u32]) -> Result<Timetable<'a>, Flaw>
        ensures { MatchResult result (λ timetable. (timetable.day ≡ day) × (timetable.minutes ≡ minutes.entry)) (Flawed day minutes.entry.now) }
    {
        check_timetable(day, minutes)?;
        Ok(Timetable { day, minutes })
    }

    /// The minute of an event of the day, and 0 for any other event.
    pub fn minute(&self, event: usize) -> u32
        ensures value { result ≡ minute self.now.minutes.now event }
        ensures weekly { result ≤ max_horizon }
    {
        self.minutes.get(event).copied().unwrap_or(0)
    }

    /// The minutes, in the order of the events.
    pub fn minutes(&self) -> &[u32]
        ensures { result.now ≡ self.now.minutes.now }
    {
        self.minutes
    }
}
