//! A follower of a ledger's events has the ledger's balances in its book, as of its last event.
#![tactic(auto)]

mod laws;

pub use laws::{
    followed_streams_are_chains, followers_hold_balances, late_followers_keep_a_prefix,
    ledger_events_are_rising, whatever_bytes_come_are_a_chain, whatever_comes_is_a_chain,
};
