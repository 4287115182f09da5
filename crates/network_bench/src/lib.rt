//! Scripts of calls on either network, to be run from Rust by a benchmark.
#![tactic(auto)]

mod exports;
mod records;
mod runs;

pub use exports::{network_bench_list, network_bench_square};
