//! Tests of a run in threads, for what no contract of its crate states.
#![tactic(auto)]

#[cfg(test)]
mod overlap;
#[cfg(test)]
mod plans;
#[cfg(test)]
mod runs;
#[cfg(test)]
mod settle;
#[cfg(test)]
mod stores;
#[cfg(test)]
mod turns;
#[cfg(test)]
mod values;
