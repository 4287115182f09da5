//! What a search tells of itself.
use search::Word;

/// How far a search is, what its plan costs, and which rules the plan gives up: bit r of `given` is 1 where rule r is.
/// Without a plan the cost is the zero cost and `given` is 0.
#[derive(Clone, Copy)]
pub struct Outcome<W> {
    pub word: Word,
    pub cost: W,
    pub given: u32,
}
