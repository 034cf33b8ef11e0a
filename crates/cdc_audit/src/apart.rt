//! The rules on the timestamps at which accounts were created: each belongs to one account, and to no event.

ghost use Rattle.std.specs.Prelude.{◌≡◌, ◌==◌, ◌≤◌, ◌++◌, ◌∷◌, ◌+◌, [], ℕ, List, vec_len, true, IfOk, OnOk, OnErr, Some, None, nat_eq, if◌then◌else◌};
ghost use Rattle.std.specs.Map.{lookup};
ghost use Rattle.std.specs.Option.{option_or};
ghost use Rattle.std.specs.Vec.{vec_capacity};
ghost use Rattle.indexmap.specs.IndexMap.{insert_entry, spare};
ghost use Rattle.cdc_types.specs.Lines.{first_line};
ghost use Rattle.cdc_audit.specs.Apart as spec;
ghost use Rattle.cdc_audit.specs.Fields as shown;
ghost use Rattle.cdc_audit.specs.Standing as standing;
ghost use Rattle.cdc_audit.specs.declared.fields.FixedFields.{FixedFields as Shown};
ghost use Rattle.cdc_audit.specs.Standing.{AreInOrder, IsLinkIndex, IsTimeIndex};

use crate::fields::{FixedFields, fixed_fields};
use crate::refusals::Refusal;
use crate::rooms::is_link;
use cdc_keys::KeyedMap;
use cdc_types::{Event, EventAccount};
use indexmap::IndexMap;
use std::alloc::{AllocError, Global};

/// What else has the timestamp at which an account was created, if no earlier event shows the account.
#[derive(Clone, Copy, Debug, PartialEq, Eq)]
pub(crate) struct Times {
    /// Whether an earlier event has it.
    pub(crate) of_event: bool,
    /// The account that an earlier event shows and that has it, by its id.
    pub(crate) of_account: Option<u128>,
}

/// Whether one of these timestamps, which are in order, is this one.
pub(crate) fn has_time(times: &[u64], timestamp: u64) -> bool
    ensures { AreInOrder times.now → result ≡ spec.has_time times.now timestamp }
{
    times.binary_search(&timestamp).is_ok()
}

/// The refusal of an event by the timestamp of an account.
fn times_refusal(times: Times, account: &EventAccount) -> Option<Refusal>
    ensures { result ≡ first_line (spec.times_lines times account.now) }
{
    if times.of_event {
        Some(Refusal::CreatedAtEvent(account.id, account.timestamp))
    } else if let Some(other) = times.of_account {
        Some(Refusal::CreatedTogether(account.id, account.timestamp, other))
    } else {
        None
    }
}

/// The refusal of an event by the two timestamps of its accounts being one.
fn together_refusal(event: &Event) -> Option<Refusal>
    ensures { result ≡ first_line (spec.together_lines event.now) }
{
    let (debited, credited) = (&event.debit_account, &event.credit_account);
    if debited.timestamp == credited.timestamp {
        Some(Refusal::CreatedTogether(credited.id, credited.timestamp, debited.id))
    } else {
        None
    }
}

/// The refusal of an event by the timestamps of its accounts.
pub(crate) fn apart_refusal(debit: Times, credit: Times, event: &Event) -> Option<Refusal>
    ensures { result ≡ first_line (spec.apart_lines debit credit event.now) }
{
    times_refusal(debit, &event.debit_account)
        .or(times_refusal(credit, &event.credit_account))
        .or(together_refusal(event))
}

/// Keeps which account was created at a timestamp, unless one is known.
fn put_created(created: &mut KeyedMap<u64, u128>, timestamp: u64, id: u128)
    requires { 1 ≤ spare created.old }
    ensures index { (t : ℕ) → lookup (nat_eq t) created.new.entries
        ≡ option_or (lookup (nat_eq t) created.old.entries) (if timestamp == t then Some id else None) }
    ensures room { spare created.old ≤ spare created.new + 1 }
{
    if !created.contains_key(&timestamp) {
        created.insert(timestamp, id).unwrap();
    }
}

/// Keeps the fields of the account with this id.
fn put_fields(fields: &mut KeyedMap<u128, FixedFields>, id: u128, shown: FixedFields)
    requires { 1 ≤ spare fields.old }
    ensures entries { fields.new.entries ≡ insert_entry nat_eq fields.old.entries id shown }
    ensures room { spare fields.old ≤ spare fields.new + 1 }
{
    fields.insert(id, shown).unwrap();
}

/// Keeps an account that isn't known.
fn add_account(
    fields: &mut KeyedMap<u128, FixedFields>,
    created: &mut KeyedMap<u64, u128>,
    id: u128,
    shown: FixedFields,
)
    requires new { lookup (nat_eq id) fields.old.entries ≡ None }
    requires fields_fit { 1 ≤ spare fields.old }
    requires created_fit { 1 ≤ spare created.old }
    ensures fields { fields.new.entries ≡ fields.old.entries ++ (id, shown) ∷ [] }
    ensures index { IsTimeIndex created.old.entries fields.old.entries
        → IsTimeIndex created.new.entries fields.new.entries }
    ensures room { spare fields.old ≤ spare fields.new + 1 }
    ensures place { spare created.old ≤ spare created.new + 1 }
{
    put_created(created, shown.timestamp, id);
    put_fields(fields, id, shown);
}

/// Keeps at which timestamp an account that isn't known was created, if it is linked.
fn put_link(links: &mut KeyedMap<u64, u128>, id: u128, shown: FixedFields)
    requires { 1 ≤ spare links.old }
    ensures index { (fields : List (ℕ × Shown)) → IsLinkIndex links.old.entries fields
        → IsLinkIndex links.new.entries (fields ++ (id, shown) ∷ []) }
    ensures room { spare links.old ≤ spare links.new + 1 }
{
    if is_link(shown.flags) {
        put_created(links, shown.timestamp, id);
    }
}

/// Keeps an account of this ledger, unless it is known.
fn keep_account(
    fields: &mut KeyedMap<u128, FixedFields>,
    created: &mut KeyedMap<u64, u128>,
    links: &mut KeyedMap<u64, u128>,
    ledger: u32,
    account: &EventAccount,
)
    requires fields_fit { 1 ≤ spare fields.old }
    requires created_fit { 1 ≤ spare created.old }
    requires links_fit { 1 ≤ spare links.old }
    ensures fields { fields.new.entries
        ≡ spec.with_shown fields.old.entries (account.now.id, shown.fixed_fields ledger account.now) }
    ensures index { IsTimeIndex created.old.entries fields.old.entries
        → IsTimeIndex created.new.entries fields.new.entries }
    ensures linked { IsLinkIndex links.old.entries fields.old.entries
        → IsLinkIndex links.new.entries fields.new.entries }
    ensures room { spare fields.old ≤ spare fields.new + 1 }
    ensures place { spare created.old ≤ spare created.new + 1 }
    ensures links_place { spare links.old ≤ spare links.new + 1 }
{
    if !fields.contains_key(&account.id) {
        let shown = fixed_fields(ledger, account);
        add_account(fields, created, account.id, shown);
        put_link(links, account.id, shown);
    }
}

/// Keeps both accounts of an accepted event, by their ids and by the timestamps at which they were created; of the
/// linked ones the timestamps alone, too. There is nothing to do if both are known.
pub(crate) fn keep_accounts(
    fields: &mut KeyedMap<u128, FixedFields>,
    created: &mut KeyedMap<u64, u128>,
    links: &mut KeyedMap<u64, u128>,
    event: &Event,
    known: bool,
)
    requires known { known ≡ true
        → standing.with_accounts fields.old.entries event.now ≡ fields.old.entries }
    requires fields_fit { 2 ≤ spare fields.old }
    requires created_fit { 2 ≤ spare created.old }
    requires links_fit { 2 ≤ spare links.old }
    ensures fields { fields.new.entries ≡ standing.with_accounts fields.old.entries event.now }
    ensures index { IsTimeIndex created.old.entries fields.old.entries
        → IsTimeIndex created.new.entries fields.new.entries }
    ensures linked { IsLinkIndex links.old.entries fields.old.entries
        → IsLinkIndex links.new.entries fields.new.entries }
{
    if known {
        return;
    }
    keep_account(fields, created, links, event.ledger, &event.debit_account);
    keep_account(fields, created, links, event.ledger, &event.credit_account);
}

/// Which of these accounts was created at each timestamp.
pub(crate) fn index_of(
    alloc: Global,
    fields: &KeyedMap<u128, FixedFields>,
) -> Result<KeyedMap<u64, u128>, AllocError>
    ensures { IfOk result (λ index. IsTimeIndex index.entries fields.now.entries) }
{
    let mut created = IndexMap::with_hasher(alloc, *fields.hasher());
    for (id, shown) in fields.iter() {
        created.reserve(1)?;
        put_created(&mut created, shown.timestamp, *id);
    }
    Ok(created)
}

/// Which of these accounts was created at each timestamp, of the linked ones.
pub(crate) fn links_index_of(
    alloc: Global,
    fields: &KeyedMap<u128, FixedFields>,
) -> Result<KeyedMap<u64, u128>, AllocError>
    ensures { IfOk result (λ index. IsLinkIndex index.entries fields.now.entries) }
{
    let mut links = IndexMap::with_hasher(alloc, *fields.hasher());
    for (id, shown) in fields.iter() {
        links.reserve(1)?;
        put_link(&mut links, *id, *shown);
    }
    Ok(links)
}

/// Keeps the timestamp of an event.
pub(crate) fn keep_time(times: &mut Vec<u64>, timestamp: u64)
    requires { vec_len times.old + 1 ≤ vec_capacity times.old }
    ensures { times.new.items ≡ times.old.items ++ timestamp ∷ [] }
{
    times.push(timestamp).unwrap();
}
