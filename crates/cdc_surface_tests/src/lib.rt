//! Tests of the public calls that other programs build on. Each uses every call, type and variant of one crate, with
//! the signatures that are documented, and nothing else. So a name or a signature that changes doesn't compile.
#![tactic(auto)]

#[cfg(test)]
mod bindings;
#[cfg(test)]
mod broker;
#[cfg(test)]
mod commands;
#[cfg(test)]
mod expiry;
#[cfg(test)]
mod ledger;
#[cfg(test)]
mod links;
#[cfg(test)]
mod log;
#[cfg(test)]
mod message;
#[cfg(test)]
mod progress;
#[cfg(test)]
mod publisher;
#[cfg(test)]
mod run;
#[cfg(test)]
mod subscriber;
#[cfg(test)]
mod types;
#[cfg(test)]
mod values;
#[cfg(test)]
mod world;
