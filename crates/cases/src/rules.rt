//! Rules at the edges of what a problem adopts.
use counting::Penalty;
use example::{gap, rule};
use problem::{Disjunct, Kind, Problem, Refusal};
use std::alloc::{AllocError, Global};
use std::test::Fail;

/// The option, at so many breaches.
fn breaching(option: Disjunct, breaches: u32) -> Disjunct {
    let points = option.penalty.points;
    Disjunct {
        penalty: Penalty { breaches, points },
        ..option
    }
}

/// Puts a rule last in the problem.
fn adopt(
    heap: Global,
    problem: &mut Problem,
    kind: Kind,
    options: &[Disjunct],
) -> Result<Result<(), Refusal>, AllocError> {
    let adopted = problem.adopt(rule(heap, kind, options)?);
    Ok(adopted.map_err(|unadopted| unadopted.refusal))
}

/// What a fresh problem of three events and 60 minutes answers to the rule.
fn offered(
    heap: Global,
    kind: Kind,
    options: &[Disjunct],
) -> Result<Result<(), Refusal>, AllocError> {
    let mut problem = Problem::new(heap)?;
    problem.set(3, 60).unwrap();
    adopt(heap, &mut problem, kind, options)
}

#[test]
fn an_option_names_two_events_of_the_day(rt: HostRuntime) -> Result<(), Fail> {
    let heap = rt.alloc();
    let strangers = Err(Refusal::EventPair);
    assert_eq!(rt; offered(heap, Kind::Firm, &[gap(2, 0, 0, 5, 0)])?, Ok(()));
    assert_eq!(rt;
        offered(heap, Kind::Firm, &[gap(3, 0, 0, 5, 0)])?,
        strangers
    );
    assert_eq!(rt;
        offered(heap, Kind::Firm, &[gap(0, 3, 0, 5, 0)])?,
        strangers
    );
    assert_eq!(rt;
        offered(heap, Kind::Firm, &[gap(1, 1, 0, 5, 0)])?,
        strangers
    );
    let twice = breaching(gap(1, 1, 6, 5, 0), 10);
    assert_eq!(rt; offered(heap, Kind::Firm, &[twice])?, strangers);
    Ok(())
}

#[test]
fn bounds_lie_within_a_week_and_in_order(rt: HostRuntime) -> Result<(), Fail> {
    let heap = rt.alloc();
    let astray = Err(Refusal::BoundRange);
    assert_eq!(rt;
        offered(heap, Kind::Firm, &[gap(1, 0, -10_080, 10_080, 0)])?,
        Ok(())
    );
    assert_eq!(rt; offered(heap, Kind::Firm, &[gap(1, 0, 5, 5, 0)])?, Ok(()));
    assert_eq!(rt;
        offered(heap, Kind::Firm, &[gap(1, 0, -10_081, 5, 0)])?,
        astray
    );
    assert_eq!(rt;
        offered(heap, Kind::Firm, &[gap(1, 0, 5, 10_081, 0)])?,
        astray
    );
    assert_eq!(rt; offered(heap, Kind::Firm, &[gap(1, 0, 6, 5, 0)])?, astray);
    let turned = breaching(gap(1, 0, 6, 5, 0), 10);
    assert_eq!(rt; offered(heap, Kind::Firm, &[turned])?, astray);
    Ok(())
}

#[test]
fn penalties_stop_at_nine_breaches_and_a_million_points(rt: HostRuntime) -> Result<(), Fail> {
    let heap = rt.alloc();
    let dear = Err(Refusal::PenaltyRange);
    let most = Kind::Wish(Penalty {
        breaches: 9,
        points: 1_000_000,
    });
    let breaches = Kind::Wish(Penalty {
        breaches: 10,
        points: 0,
    });
    let points = Kind::Wish(Penalty {
        breaches: 0,
        points: 1_000_001,
    });
    let costliest = breaching(gap(1, 0, 0, 5, 1_000_000), 9);
    assert_eq!(rt; offered(heap, most, &[costliest])?, Ok(()));
    let ten = breaching(gap(1, 0, 0, 5, 0), 10);
    assert_eq!(rt; offered(heap, Kind::Firm, &[ten])?, dear);
    assert_eq!(rt;
        offered(heap, Kind::Firm, &[gap(1, 0, 0, 5, 1_000_001)])?,
        dear
    );
    assert_eq!(rt; offered(heap, breaches, &[gap(1, 1, 0, 5, 0)])?, dear);
    assert_eq!(rt; offered(heap, points, &[gap(1, 1, 0, 5, 0)])?, dear);
    Ok(())
}

#[test]
fn a_rule_has_1_to_8_options_checked_one_by_one(rt: HostRuntime) -> Result<(), Fail> {
    let heap = rt.alloc();
    let good = gap(1, 0, 0, 5, 0);
    let late = gap(1, 0, 6, 5, 0);
    let lost = gap(3, 0, 0, 5, 0);
    let dear = Kind::Wish(Penalty {
        breaches: 10,
        points: 0,
    });
    let many = Err(Refusal::DisjunctCount);
    assert_eq!(rt; offered(heap, dear, &[])?, many);
    assert_eq!(rt; offered(heap, Kind::Firm, &[good; 8])?, Ok(()));
    assert_eq!(rt; offered(heap, Kind::Firm, &[good; 9])?, many);
    assert_eq!(rt; offered(heap, Kind::Firm, &[lost; 9])?, many);
    assert_eq!(rt;
        offered(heap, Kind::Firm, &[good, late, lost])?,
        Err(Refusal::BoundRange)
    );
    assert_eq!(rt;
        offered(heap, Kind::Firm, &[good, lost, late])?,
        Err(Refusal::EventPair)
    );
    Ok(())
}

#[test]
fn a_problem_takes_32_rules_and_then_no_other_day(rt: HostRuntime) -> Result<(), Fail> {
    let heap = rt.alloc();
    let good = gap(1, 0, 0, 5, 0);
    let mut problem = Problem::new(heap)?;
    let full = Err(Refusal::RuleCount);
    assert_eq!(rt;
        adopt(heap, &mut problem, Kind::Firm, &[good])?,
        Err(Refusal::EventPair)
    );
    assert_eq!(rt; problem.set(3, 60), Ok(()));
    for _ in 0..32 {
        assert_eq!(rt; adopt(heap, &mut problem, Kind::Firm, &[good])?, Ok(()));
    }
    assert_eq!(rt; adopt(heap, &mut problem, Kind::Firm, &[good])?, full);
    assert_eq!(rt; adopt(heap, &mut problem, Kind::Firm, &[])?, full);
    assert_eq!(rt; problem.rules().len(), 32);
    assert_eq!(rt; problem.set(3, 60), Err(Refusal::RulesStand));
    assert_eq!(rt; problem.day().horizon(), 60);
    Ok(())
}
