//! Penalties: what a rule states for one of its options or for giving it up.

/// The most breaches that a rule may state at once.
pub const MAX_BREACHES: u32 = 9;

/// The most points that a rule may state at once.
pub const MAX_POINTS: u32 = 1_000_000;

/// Breaches and points as a rule states them. A way of counting reads them as a cost.
#[derive(Clone, Copy, PartialEq, Eq, Debug)]
pub struct Penalty {
    pub breaches: u32,
    pub points: u32,
}
