//! Whatever of a ledger's events reaches checked following, for each account the applied events that moved posted money
//! are a prefix of the ledger's.
#![tactic(auto)]

mod laws;

pub use laws::{
    baselines_miss_no_money, checked_accounts_miss_nothing, checked_books_hold_balances,
    checked_movements_are_a_prefix, checked_parts_miss_nothing, followed_bytes_are_checked,
    the_next_event_is_applied, whole_streams_are_applied,
};
