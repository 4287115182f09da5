//! A small problem to try things on: two rounds of one hour, kept apart, with a wish for each.
#![tactic(auto)]

ghost use Rattle.std.specs.Prelude.{◌≡◌, map, IfOk};
ghost use Rattle.problem.specs.Problems.{MadeOf};
ghost use Rattle.problem.specs.Rules.{rule_of};
ghost use Rattle.example.specs.Example.{points_alone, gap, stated, wish_for, example_rules};

use counting::Penalty;
use problem::{Constraint, Disjunct, Kind, Problem};
use std::alloc::{AllocError, Global};

/// A penalty of so many points.
fn penalty_of(points: u32) -> Penalty
    ensures { result ≡ points_alone points }
{
    Penalty {
        breaches: 0,
        points,
    }
}

/// Event `x` comes `lo` to `hi` minutes after event `y`, at a penalty of so many points.
pub fn gap(x: usize, y: usize, lo: i32, hi: i32, points: u32) -> Disjunct
    ensures { result ≡ gap x y lo hi points }
{
    Disjunct {
        x,
        y,
        lo,
        hi,
        penalty: penalty_of(points),
    }
}

/// A wish that costs so many points to give up.
pub fn wish(points: u32) -> Kind
    ensures { result ≡ wish_for points }
{
    Kind::Wish(penalty_of(points))
}

/// A rule of this kind with these options. Fails only for want of memory.
pub fn rule(heap: Global, kind: Kind, options: &[Disjunct]) -> Result<Constraint, AllocError>
    ensures { IfOk result (λ rule. rule_of rule ≡ stated kind options.now) }
{
    let disjuncts = options.to_vec(heap)?;
    Ok(Constraint { kind, disjuncts })
}

/// The rules of the example, in order. Firm: events 1 and 2 are 15 to 60 minutes apart. Wish for 40 points: event 2
/// comes within 10 minutes of the start. Wish for 30 points: event 1 comes within 5 minutes of the start, or at 6 to
/// 20 minutes for 10 points. Fails only for want of memory.
pub fn example_rules(heap: Global) -> Result<[Constraint; 3], AllocError>
    ensures { IfOk result (λ rules. map rule_of rules ≡ example_rules) }
{
    let apart = rule(
        heap,
        Kind::Firm,
        &[gap(1, 2, 15, 60, 0), gap(2, 1, 15, 60, 0)],
    )?;
    let second_soon = rule(heap, wish(40), &[gap(2, 0, 0, 10, 0)])?;
    let first_soon = rule(heap, wish(30), &[gap(1, 0, 0, 5, 0), gap(1, 0, 6, 20, 10)])?;
    Ok([apart, second_soon, first_soon])
}

/// The example: three events within 60 minutes, and the rules of the example. Fails only for want of memory.
pub fn example_problem(heap: Global) -> Result<Problem, AllocError>
    ensures { IfOk result (λ problem. MadeOf 3 60 example_rules problem) }
{
    let [apart, second_soon, first_soon] = example_rules(heap)?;
    let mut problem = Problem::new(heap)?;
    problem.set(3, 60).unwrap();
    problem.adopt(apart).unwrap();
    problem.adopt(second_soon).unwrap();
    problem.adopt(first_soon).unwrap();
    Ok(problem)
}
