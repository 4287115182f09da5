//! Stored cases: tables of calls and what they must answer, each worked out by hand.
#![tactic(auto)]

#[cfg(test)]
mod days;
#[cfg(test)]
mod lists;
#[cfg(test)]
mod networks;
#[cfg(test)]
mod refusals;
#[cfg(test)]
mod rules;
#[cfg(test)]
mod timetables;
#[cfg(test)]
mod ways;
