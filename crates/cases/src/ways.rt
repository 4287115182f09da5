//! The three ways of counting at their stops.
use counting::{Counting, Penalty, Shown, Sum, Tier, Worst};

/// The cost of so many breaches and points.
fn read<W: Counting>(breaches: u32, points: u32) -> W {
    W::reading(Penalty { breaches, points })
}

/// Two penalties joined, as shown.
fn joined<W: Counting>(a: (u32, u32), b: (u32, u32)) -> Shown {
    read::<W>(a.0, a.1).join(read(b.0, b.1)).shown()
}

fn shown(first: u32, second: u32) -> Shown {
    Shown { first, second }
}

#[test]
fn sum_adds_points_up_to_a_thousand_million(rt: HostRuntime) {
    assert_eq!(rt; Sum::ZERO.shown(), shown(0, 0));
    assert_eq!(rt; joined::<Sum>((3, 4), (5, 6)), shown(0, 10));
    assert_eq!(rt;
        joined::<Sum>((0, 999_999_999), (0, 1)),
        shown(0, 1_000_000_000)
    );
    assert_eq!(rt;
        joined::<Sum>((0, 1_000_000_000), (0, 1)),
        shown(0, 1_000_000_000)
    );
    assert_eq!(rt;
        read::<Sum>(0, 4_000_000_000).shown(),
        shown(0, 1_000_000_000)
    );
    assert!(rt; read::<Sum>(9, 4).at_most(read(0, 4)));
    assert!(rt; !read::<Sum>(0, 5).at_most(read(9, 4)));
}

#[test]
fn worst_keeps_the_larger_points_up_to_a_million(rt: HostRuntime) {
    assert_eq!(rt; Worst::ZERO.shown(), shown(0, 0));
    assert_eq!(rt; joined::<Worst>((3, 4), (5, 6)), shown(0, 6));
    assert_eq!(rt;
        joined::<Worst>((0, 1_000_000), (0, 7)),
        shown(0, 1_000_000)
    );
    assert_eq!(rt; read::<Worst>(0, 1_000_001).shown(), shown(0, 1_000_000));
    assert!(rt; read::<Worst>(9, 4).at_most(read(0, 4)));
    assert!(rt; !read::<Worst>(0, 5).at_most(read(9, 4)));
}

#[test]
fn tier_adds_both_and_goes_to_both_stops_past_a_thousand_breaches(rt: HostRuntime) {
    assert_eq!(rt; Tier::ZERO.shown(), shown(0, 0));
    assert_eq!(rt; joined::<Tier>((3, 4), (5, 6)), shown(8, 10));
    assert_eq!(rt;
        joined::<Tier>((0, 999_999_999), (0, 2)),
        shown(0, 1_000_000_000)
    );
    assert_eq!(rt; joined::<Tier>((999, 5), (1, 0)), shown(1_000, 5));
    assert_eq!(rt;
        joined::<Tier>((1_000, 0), (1, 0)),
        shown(1_000, 1_000_000_000)
    );
    assert_eq!(rt; read::<Tier>(1_001, 0).shown(), shown(1_000, 1_000_000_000));
    assert!(rt; read::<Tier>(0, 1_000_000).at_most(read(1, 0)));
    assert!(rt; !read::<Tier>(1, 0).at_most(read(0, 1_000_000)));
}
