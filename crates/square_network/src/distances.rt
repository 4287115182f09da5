//! Tables of distances between all pairs of a day's events.
ghost use Rattle.std.specs.Prelude.{◌≡◌, ℕ, ◌<◌, length, pos, ◌+ℤ◌, ◌≤ℤ◌};
ghost use Rattle.std.specs.Int.{int_min, int_wrap, w16};
ghost use Rattle.problem.specs.Bounds.{max_events};
ghost use Rattle.network.specs.Limits.{Lawful};
ghost use Rattle.square_network.specs.Distances.{at, Zeros, Triangle, Starts, Ends, Near, Opened, Shortened};
ghost use Rattle.square_network.specs.Rows.{to, NearRow, Onward, ShortenedRow};

use network::Limit;
use problem::{Day, MAX_EVENTS};

/// The distances from one event to each.
type Row = [i16; MAX_EVENTS];

/// The distances between all pairs of a day's events: at row `i` and column `j` stands the most minutes that event `i`
/// may come after event `j`. No way by a third event is shorter. Places past the last event mean nothing.
#[derive(Clone, Copy)]
pub(crate) struct Distances {
    day: Day,
    rows: [Row; MAX_EVENTS],
    ghost same: { Zeros day rows },
    ghost triangle: { Triangle day rows },
    ghost first: { Starts day rows },
    ghost last: { Ends day rows },
}

/// The distances while there are no limits: no event comes before event 0, nor after the horizon.
fn opened_rows(day: Day) -> [Row; MAX_EVENTS]
    ensures { Opened day result }
{
    let mut rows = [[day.horizon() as i16; MAX_EVENTS]; MAX_EVENTS];
    rows[0] = [0; MAX_EVENTS];
    for (i, row) in rows.iter_mut().enumerate() {
        row[i] = 0;
    }
    rows
}

/// The shorter of a distance and the way by a limit: to its one end, and onward from there. The sum may wrap.
fn shorter(distance: i16, to_limit: i16, onward: i16) -> i16
    ensures { result ≡ int_min distance (int_wrap w16 (to_limit +ℤ onward)) }
{
    distance.min(to_limit.wrapping_add(onward))
}

/// The distances in `row`, or by way of a limit those in `beyond`, where that is shorter. Goes over all columns: those
/// past the last event mean nothing, and may wrap.
fn shorter_row(row: &Row, to_limit: i16, beyond: &Row) -> Row
    ensures { (j : ℕ) → j < max_events → to result j ≡ int_min (to row.now j) (int_wrap w16 (to_limit +ℤ to beyond.now j)) }
{
    std::array::from_fn(|j| shorter(row[j], to_limit, beyond[j]))
}

/// Puts the limit on the distances from one event; `beyond` are those from the limit's `y`. Where the limit does not
/// shorten the way to its `y`, it shortens no way, and the row stands.
fn shorten_row(row: &mut Row, beyond: &Row, day: Day, limit: Limit)
    requires near { NearRow day row.old }
    requires beyond_near { NearRow day beyond.now }
    requires onward { Onward day row.old limit.y beyond.now }
    requires lawful { Lawful day limit }
    ensures { ShortenedRow day row.old beyond.now limit row.new }
{
    let to_limit = row[limit.x] as i32 + limit.bound;
    if to_limit < row[limit.y] as i32 {
        *row = shorter_row(row, to_limit as i16, beyond);
    }
}

/// Puts the limit on the distances of a day.
fn shorten_rows(rows: &mut [Row], day: Day, limit: Limit)
    requires size { length rows.old ≡ max_events }
    requires near { Near day rows.old }
    requires triangle { Triangle day rows.old }
    requires lawful { Lawful day limit }
    ensures { Shortened day rows.old limit rows.new }
{
    let beyond = rows[limit.y];
    for row in &mut rows[..day.events()] {
        shorten_row(row, &beyond, day, limit);
    }
}

impl Distances {
    /// The distances while there are no limits.
    pub(crate) fn opened(day: Day) -> Distances
        ensures day { result.day ≡ day }
        ensures rows { Opened day result.rows }
    {
        Distances {
            day,
            rows: opened_rows(day),
        }
    }

    /// The distance from event `i` to event `j`.
    pub(crate) fn distance(&self, i: usize, j: usize) -> i32
        requires row { i < self.now.day.events }
        requires column { j < self.now.day.events }
        ensures { result ≡ at self.now.rows i j }
    {
        self.rows[i][j] as i32
    }

    /// Puts on a limit that leaves the way back.
    pub(crate) fn shorten(&mut self, limit: Limit)
        requires lawful { Lawful self.old.day limit }
        requires free { pos 0 ≤ℤ (at self.old.rows limit.y limit.x +ℤ limit.bound) }
        ensures day { self.new.day ≡ self.old.day }
        ensures rows { Shortened self.old.day self.old.rows limit self.new.rows }
    {
        shorten_rows(&mut self.rows, self.day, limit);
    }
}
