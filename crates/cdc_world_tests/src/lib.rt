//! Tests of the world, and of how commands write, for what no contract of their crates states.
#![tactic(auto)]

#[cfg(test)]
mod courses;
#[cfg(test)]
mod moves;
#[cfg(test)]
mod played;
#[cfg(test)]
mod random;
#[cfg(test)]
mod retries;
#[cfg(test)]
mod writers;
