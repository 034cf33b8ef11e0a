//! What events show of accounts besides their balances.

ghost use Rattle.std.specs.Prelude.{◌≡◌, ◌≤◌, fold, IfSome, OnOk};
ghost use Rattle.std.specs.Option.{option_map};
ghost use Rattle.indexmap.specs.IndexMap.{spare};
ghost use Rattle.cdc_book_log.specs.Details.{details_of as shown_details, items_of, show as show_in, show_item};

use cdc_follow::{Content, Entry, Following};
use cdc_keys::KeyedMap;
use cdc_types::{Event, EventAccount};
use std::alloc::AllocError;

/// What an event shows of one of its accounts besides the balances.
#[derive(Clone, Copy, Debug, PartialEq, Eq)]
pub struct Details {
    /// The timestamp of the event, in nanoseconds.
    pub last_timestamp: u64,
    pub ledger: u32,
    pub code: u16,
    /// Bits of `AccountFlags`.
    pub flags: u16,
    /// Opaque to the ledger, as are the next two.
    pub user_data_128: u128,
    /// Opaque to the ledger, as are the next two.
    pub user_data_64: u64,
    /// Opaque to the ledger, as are the next two.
    pub user_data_32: u32,
}

/// What an event shows of this account.
fn details_of(event: &Event, account: &EventAccount) -> Details
    ensures { result ≡ shown_details event.now account.now }
{
    Details {
        last_timestamp: event.timestamp,
        ledger: event.ledger,
        code: account.code,
        flags: account.flags,
        user_data_128: account.user_data_128,
        user_data_64: account.user_data_64,
        user_data_32: account.user_data_32,
    }
}

/// Puts what an event shows of its accounts into what is known of accounts.
fn show_event(known: &mut KeyedMap<u128, Details>, event: &Event)
    requires { 2 ≤ spare known.old }
    ensures { known.new.entries ≡ show_in event.now known.old.entries }
{
    let (debited, credited) = (&event.debit_account, &event.credit_account);
    let _before = known
        .insert(debited.id, details_of(event, debited))
        .unwrap();
    let _before = known
        .insert(credited.id, details_of(event, credited))
        .unwrap();
}

/// Makes room for what an event shows of its accounts, if that is kept.
pub(crate) fn make_room(shown: &mut Option<KeyedMap<u128, Details>>) -> Result<(), AllocError>
    ensures entries { option_map (λ known. known.entries) shown.new ≡ option_map (λ known. known.entries) shown.old }
    ensures room { OnOk result (IfSome shown.new (λ known. 2 ≤ spare known)) }
{
    match shown {
        Some(known) => known.reserve(2),
        None => Ok(()),
    }
}

/// Keeps what an entry shows of its accounts, if that is kept, and if it is an event that was applied.
pub(crate) fn show_entry(
    shown: &mut Option<KeyedMap<u128, Details>>,
    following: Following,
    entry: &Entry,
)
    requires { IfSome shown.old (λ known. 2 ≤ spare known) }
    ensures { option_map (λ known. known.entries) shown.new
        ≡ option_map (λ known. fold show_item known.entries (items_of following entry.now.content)) shown.old }
{
    if let Some(known) = shown {
        if let (Following::Applied, Content::Event(event)) = (following, &entry.content) {
            show_event(known, event);
        }
    }
}
