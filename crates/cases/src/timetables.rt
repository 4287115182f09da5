//! Timetables of the example, with what they cost.
use costing::{Objection, cost_of};
use counting::{Counting, Sum, Tier, Worst};
use example::example_problem;
use problem::Problem;
use std::test::Fail;

/// The points that the minutes cost as shown, or why they have no cost.
fn points<W: Counting>(problem: &Problem, minutes: &[u32]) -> Result<u32, Objection> {
    Ok(cost_of::<W>(problem, minutes)?.shown().second)
}

/// The points under SUM, WORST and TIER, where events 1 and 2 are at these minutes.
fn costs(problem: &Problem, first: u32, second: u32) -> [Result<u32, Objection>; 3] {
    let minutes = [0, first, second];
    [
        points::<Sum>(problem, &minutes),
        points::<Worst>(problem, &minutes),
        points::<Tier>(problem, &minutes),
    ]
}

#[test]
fn rounds_of_the_example_cost_what_they_cost_by_hand(rt: HostRuntime) -> Result<(), Fail> {
    let problem = example_problem(rt.alloc())?;
    assert_eq!(rt; costs(&problem, 15, 0), [Ok(10), Ok(10), Ok(10)]);
    assert_eq!(rt; costs(&problem, 20, 5), [Ok(10), Ok(10), Ok(10)]);
    assert_eq!(rt; costs(&problem, 21, 5), [Ok(30), Ok(30), Ok(30)]);
    assert_eq!(rt; costs(&problem, 26, 11), [Ok(70), Ok(40), Ok(70)]);
    assert_eq!(rt; costs(&problem, 0, 15), [Ok(40), Ok(40), Ok(40)]);
    assert_eq!(rt; costs(&problem, 5, 20), [Ok(40), Ok(40), Ok(40)]);
    assert_eq!(rt; costs(&problem, 6, 21), [Ok(50), Ok(40), Ok(50)]);
    assert_eq!(rt; costs(&problem, 60, 0), [Ok(30), Ok(30), Ok(30)]);
    let forbidden = Err(Objection::Forbidden { rule: 0 });
    assert_eq!(rt; costs(&problem, 14, 0), [forbidden; 3]);
    assert_eq!(rt; costs(&problem, 0, 0), [forbidden; 3]);
    Ok(())
}
