//! Canonical decimal numbers, and the fields of a line of text that commas part.
#![tactic(auto)]

mod cursor;
mod number;

pub use crate::cursor::Fields;
pub use crate::number::{IllFormed, integer, natural};
