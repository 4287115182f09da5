//! The words by which a search tells how far it is.

/// How far a search is.
#[derive(Clone, Copy, PartialEq, Eq, Debug)]
pub enum Word {
    /// OPEN: it is running and keeps no plan.
    Open,
    /// SHORT: it is running and keeps a plan.
    Short,
    /// NONE: it has ended without a plan.
    None,
    /// PROVED: it has ended with a plan.
    Proved,
}
