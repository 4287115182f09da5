//! The cost of one rule: the least among the choices that a timetable meets.
ghost use Rattle.std.specs.Prelude.{◌≡◌, true, None};
ghost use Rattle.std.specs.List.{All};
ghost use Rattle.problem.specs.Checks.{two_events, passes, disjunct_checks, rule_checks};
ghost use Rattle.problem.specs.Rules.{rule_of};
ghost use Rattle.problem.specs.Timetables.{choices, gap};
ghost use Rattle.costing.specs.Cheapest.{gives, in_bounds, lesser, met_costs, least_cost, Cheapest};

use counting::Counting;
use problem::{Constraint, Disjunct, Kind, Timetable};

/// How many minutes event `x` comes after event `y`, two different events of the day.
fn gap_of(timetable: &Timetable, x: usize, y: usize) -> i32
    requires { two_events timetable.now.day x y ≡ true }
    ensures { result ≡ gap (gives timetable.now) x y }
{
    let minutes = timetable.minutes();
    minutes[x] as i32 - minutes[y] as i32
}

/// Whether the timetable meets the disjunct.
fn meets(disjunct: &Disjunct, timetable: &Timetable) -> bool
    requires { passes (disjunct_checks timetable.now.day disjunct.now) ≡ true }
    ensures { result ≡ in_bounds (gives timetable.now) disjunct.now }
{
    let gap = gap_of(timetable, disjunct.x, disjunct.y);
    (disjunct.lo..=disjunct.hi).contains(&gap)
}

/// The lesser of two costs, the first where they rank alike.
fn lesser_of<W: Counting>(kept: Option<W>, cost: W) -> W
    ensures { result ≡ lesser W.Counting.way kept cost }
{
    match kept {
        Some(least) if least.at_most(cost) => least,
        _ => cost,
    }
}

/// The least cost among the disjuncts that the timetable meets, if it meets any.
fn least_met<W: Counting>(disjuncts: &[Disjunct], timetable: &Timetable) -> Option<W>
    requires { All (λ d. passes (disjunct_checks timetable.now.day d) ≡ true) disjuncts.now }
    ensures { result ≡ least_cost W.Counting.way None (met_costs W.Counting.way (gives timetable.now) disjuncts.now) }
{
    disjuncts
        .iter()
        .filter(|disjunct| meets(disjunct, timetable))
        .map(|disjunct| W::reading(disjunct.penalty))
        .fold(None, |least, cost| Some(lesser_of(least, cost)))
}

/// The least cost among the rule's choices that the timetable meets, if it meets any.
pub(crate) fn rule_cost<W: Counting>(rule: &Constraint, timetable: &Timetable) -> Option<W>
    requires { passes (rule_checks timetable.now.day (rule_of rule.now)) ≡ true }
    ensures { Cheapest W.Counting.way (gives timetable.now) (choices (rule_of rule.now)) result }
{
    let least = least_met(rule.disjuncts.as_slice(), timetable);
    match rule.kind {
        Kind::Firm => least,
        Kind::Wish(penalty) => Some(lesser_of(least, W::reading(penalty))),
    }
}
