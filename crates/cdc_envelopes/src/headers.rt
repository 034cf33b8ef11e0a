//! The members between the predecessor and the body: the headers of the message and its timestamp.

ghost use Rattle.std.specs.Prelude.{◌≡◌, ◌∷◌, ◌++◌, ◌<◌, ◌^◌, ℕ, List, IfSome, OnSome, decimal};
ghost use Rattle.cdc_types.specs.declared.events.EventKind.{EventKind};
ghost use Rattle.cdc_message.specs.Kinds.{kind_text as text_of};
ghost use Rattle.cdc_envelopes.specs.Private.Members.{ReadsHeaders, Skips};
ghost use Rattle.cdc_envelopes.specs.Private.Headers.{headers_then, HeadersFit};

use crate::numbers::number_after;
use cdc_message::{Cursor, kind_text};
use cdc_types::{EventKind, Headers};

// The kind that may stand at the front of a text, by two of its bytes. The caller has to compare its text.
fn likely_kind(text: &[u8]) -> EventKind
    ensures { (kind : EventKind) (rest : List ℕ) → text.now ≡ text_of kind ++ rest → result ≡ kind }
{
    match (text.get(10), text.get(11)) {
        (Some(b's'), _) => EventKind::SinglePhase,
        (Some(b'v'), _) => EventKind::TwoPhaseVoided,
        (Some(b'e'), _) => EventKind::TwoPhaseExpired,
        (_, Some(b'o')) => EventKind::TwoPhasePosted,
        _ => EventKind::TwoPhasePending,
    }
}

// Reads the name of a kind.
fn kind(cursor: &mut Cursor<'_>) -> Option<EventKind>
    ensures text { IfSome result (λ kind. cursor.old.rest.now ≡ text_of kind ++ cursor.new.rest.now) }
    ensures complete { (kind : EventKind) (rest : List ℕ) → cursor.old.rest.now ≡ text_of kind ++ rest
        → (result ≡ Some kind) × (cursor.new.rest.now ≡ rest) }
{
    let kind = likely_kind(cursor.rest);
    cursor.literal(kind_text(kind).as_bytes())?;
    Some(kind)
}

// Skips the headers and the timestamp.
fn skip_headers(cursor: &mut Cursor<'_>) -> Option<()>
    ensures text { OnSome result (ReadsHeaders cursor.old.rest.now cursor.new.rest.now) }
    ensures complete { (headers : Headers) (seconds : ℕ) (rest : List ℕ) → HeadersFit headers → seconds < 2 ^ 64
        → cursor.old.rest.now ≡ headers_then headers seconds rest → (result ≡ Some tt) × (cursor.new.rest.now ≡ rest) }
{
    cursor.literal(b"\"headers\":{\"event_type\":\"")?;
    kind(cursor)?;
    number_after(cursor, b"\",\"ledger\":")?;
    number_after(cursor, b",\"transfer_code\":")?;
    number_after(cursor, b",\"debit_account_code\":")?;
    number_after(cursor, b",\"credit_account_code\":")?;
    number_after(cursor, b"},\"timestamp\":")?;
    cursor.literal(b",")?;
    Some(())
}

// Skips what is between the predecessor and the body, if anything is.
pub(crate) fn skip_middle(cursor: &mut Cursor<'_>) -> Option<()>
    ensures skips { OnSome result (Skips cursor.old.rest.now cursor.new.rest.now) }
    ensures complete { (headers : Headers) (seconds : ℕ) (rest : List ℕ) → HeadersFit headers → seconds < 2 ^ 64
        → cursor.old.rest.now ≡ headers_then headers seconds rest → (result ≡ Some tt) × (cursor.new.rest.now ≡ rest) }
{
    if cursor.rest.get(1) == Some(&b'h') {
        skip_headers(cursor)?;
    }
    Some(())
}
