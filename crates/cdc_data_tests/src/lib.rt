//! Tests of the crates for data and texts: what their contracts don't state.
#![tactic(auto)]

#[cfg(test)]
mod bindings;
pub mod bodies;
#[cfg(test)]
mod codec;
#[cfg(test)]
mod expiry;
#[cfg(test)]
mod frames;
#[cfg(test)]
mod log;
#[cfg(test)]
mod message;
#[cfg(test)]
mod message_fields;
#[cfg(test)]
mod script;
#[cfg(test)]
mod types;
