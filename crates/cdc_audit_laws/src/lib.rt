//! Each prefix of a ledger's stream is accepted, and each accepted stream is a prefix of one, with the premises that
//! PROOFS names. The crate has what an audit shows of a stream.
#![tactic(auto)]

mod laws;

pub use laws::{
    a_change_shows, accepted_events_are_a_ledgers, accepted_events_rise, balances_are_sums,
    ledgers_are_accepted, ledgers_events_are_whole, no_other_balances, prefixes_are_accepted,
};
