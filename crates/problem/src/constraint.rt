//! Constraints on a timetable: each is a disjunction of gaps between two events.
use crate::day::MAX_HORIZON;
use counting::Penalty;

/// The largest bound of a gap, and with a minus sign the smallest.
pub const MAX_BOUND: i32 = MAX_HORIZON as i32;

/// The most disjuncts of a constraint.
pub const MAX_DISJUNCTS: usize = 8;

/// An option of a rule: event `x` comes `lo` to `hi` minutes after event `y`, at a penalty.
#[derive(Clone, Copy)]
pub struct Disjunct {
    pub x: usize,
    pub y: usize,
    pub lo: i32,
    pub hi: i32,
    pub penalty: Penalty,
}

/// Whether a rule must hold.
#[derive(Clone, Copy)]
pub enum Kind {
    /// One of the options must be met.
    Firm,
    /// The rule may be given up, for the breaches and points of this penalty.
    Wish(Penalty),
}

/// A rule: a disjunctive temporal constraint, whose disjuncts are the options of the rule in their stated order.
#[derive(Drop)]
pub struct Constraint {
    pub kind: Kind,
    pub disjuncts: Vec<Disjunct>,
}
