//! Tests of the crates between the ledger and the books: what their contracts don't state.
#![tactic(auto)]

#[cfg(test)]
mod book_log;
#[cfg(test)]
mod broker;
#[cfg(test)]
mod progress;
#[cfg(test)]
mod publisher;
#[cfg(test)]
mod subscriber;
