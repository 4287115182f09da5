//! What is known from step to step.

/// A network with the limits of the first `depth` choices of a selection on it, and the price of the plan.
#[derive(Drop)]
pub(crate) struct Cursor<'a, W, N> {
    pub(crate) network: &'a mut N,
    pub(crate) depth: usize,
    pub(crate) best: Option<W>,
}
