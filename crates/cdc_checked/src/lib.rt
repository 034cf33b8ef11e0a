//! A checker applies an event just if it is later than the last one of each of its accounts and follows from what is
//! known of these. Each event shows the balances of its two accounts after it, so a lost event is noticed at the next
//! event of either account.
#![tactic(auto)]

pub mod checker;

pub use checker::{Checker, KnownAccount, Outcome};
