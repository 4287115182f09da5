//! Lines of standard input, one after the other, in bounded memory.
#![tactic(auto)]

mod input;
mod line;
mod source;

pub use input::{Lines, read_lines};
pub use line::{Line, MAX_LINE};
