//! The rules on the fields of an account that never change.

ghost use Rattle.std.specs.Prelude.{◌≡◌};
ghost use Rattle.cdc_types.specs.Lines.{first_line};
ghost use Rattle.cdc_audit.specs.Fields as spec;

use crate::refusals::{FieldMismatch, FixedField, Refusal};
use cdc_types::{Event, EventAccount};

/// The fields of an account that never change, besides its id.
#[derive(Clone, Copy, Debug, PartialEq, Eq)]
pub struct FixedFields {
    /// Opaque to the ledger, as are the next two.
    pub user_data_128: u128,
    /// Opaque to the ledger, as are the next two.
    pub user_data_64: u64,
    /// Opaque to the ledger, as are the next two.
    pub user_data_32: u32,
    /// The ledger of the event that shows the account.
    pub ledger: u32,
    pub code: u16,
    /// Bits of `AccountFlags`.
    pub flags: u16,
    /// When the account was created, in nanoseconds.
    pub timestamp: u64,
}

/// These fields of an account of this ledger.
pub(crate) fn fixed_fields(ledger: u32, account: &EventAccount) -> FixedFields
    ensures { result ≡ spec.fixed_fields ledger account.now }
{
    FixedFields {
        user_data_128: account.user_data_128,
        user_data_64: account.user_data_64,
        user_data_32: account.user_data_32,
        ledger,
        code: account.code,
        flags: account.flags,
        timestamp: account.timestamp,
    }
}

/// The refusal of an event by one field of an account, which shows another value than before.
fn field_refusal(account: u128, field: FixedField, shown: u128, before: u128) -> Refusal
    ensures { result ≡ (spec.field_line account field shown before).1 }
{
    Refusal::AccountField(FieldMismatch {
        account,
        field,
        shown,
        before,
    })
}

/// The refusal of an event by the fields of an account, which its first event showed.
fn same_refusal(id: u128, shown: FixedFields, before: FixedFields) -> Option<Refusal>
    ensures { result ≡ first_line (spec.same_lines id shown before) }
{
    if shown.user_data_128 != before.user_data_128 {
        let (new, old) = (shown.user_data_128, before.user_data_128);
        Some(field_refusal(id, FixedField::UserData128, new, old))
    } else if shown.user_data_64 != before.user_data_64 {
        let (new, old) = (shown.user_data_64.into(), before.user_data_64.into());
        Some(field_refusal(id, FixedField::UserData64, new, old))
    } else if shown.user_data_32 != before.user_data_32 {
        let (new, old) = (shown.user_data_32.into(), before.user_data_32.into());
        Some(field_refusal(id, FixedField::UserData32, new, old))
    } else if shown.ledger != before.ledger {
        let (new, old) = (shown.ledger.into(), before.ledger.into());
        Some(field_refusal(id, FixedField::Ledger, new, old))
    } else if shown.code != before.code {
        let (new, old) = (shown.code.into(), before.code.into());
        Some(field_refusal(id, FixedField::Code, new, old))
    } else if shown.flags != before.flags {
        let (new, old) = (shown.flags.into(), before.flags.into());
        Some(field_refusal(id, FixedField::Flags, new, old))
    } else if shown.timestamp != before.timestamp {
        let (new, old) = (shown.timestamp.into(), before.timestamp.into());
        Some(field_refusal(id, FixedField::Timestamp, new, old))
    } else {
        None
    }
}

/// The refusal of an event by the fields of an account of this ledger, which may have no earlier event.
pub(crate) fn fields_refusal(
    before: Option<FixedFields>,
    ledger: u32,
    account: &EventAccount,
) -> Option<Refusal>
    ensures { result ≡ first_line (spec.fields_lines before ledger account.now) }
{
    let shown = fixed_fields(ledger, account);
    same_refusal(account.id, shown, before.unwrap_or(shown))
}

/// Whether an account was created before this timestamp, and not at 0.
fn is_created(account: &EventAccount, timestamp: u64) -> bool
    ensures { result ≡ spec.is_created account.now timestamp }
{
    0 < account.timestamp && account.timestamp < timestamp
}

/// The refusal of an event by the timestamps of its accounts.
pub(crate) fn created_refusal(event: &Event) -> Option<Refusal>
    ensures { result ≡ first_line (spec.created_lines event.now) }
{
    let (debited, credited) = (&event.debit_account, &event.credit_account);
    if !is_created(debited, event.timestamp) {
        Some(Refusal::CreatedLater(debited.id, debited.timestamp, event.timestamp))
    } else if !is_created(credited, event.timestamp) {
        Some(Refusal::CreatedLater(credited.id, credited.timestamp, event.timestamp))
    } else {
        None
    }
}
