//! Stored cases of the planner: small books by calls, each worked out by hand, over both networks.
#![tactic(auto)]

#[cfg(test)]
mod bench;
#[cfg(test)]
mod books;
#[cfg(test)]
mod presses;
#[cfg(test)]
mod replays;
