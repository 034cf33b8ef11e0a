//! Tests of the ledger: what its contracts don't state.
#![tactic(auto)]

#[cfg(test)]
mod chains;
#[cfg(test)]
mod courses;
#[cfg(test)]
mod phases;
#[cfg(test)]
mod sizes;
