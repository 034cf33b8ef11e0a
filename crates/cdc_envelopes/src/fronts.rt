//! The members up to the predecessor.

ghost use Rattle.std.specs.Prelude.{◌≡◌, ◌<◌, ◌^◌, ◌++◌, ℕ, List, IfSome, OnSome, codes, decimal};
ghost use Rattle.cdc_envelopes.specs.Private.Members.{Begins, GivesPrevious, Skips};

use crate::numbers::number_after;
use cdc_message::Cursor;

// Skips `true` or `false`, and the comma.
fn skip_flag(cursor: &mut Cursor<'_>) -> Option<()>
    ensures { OnSome result (Skips (codes "\"redelivered\":" ++ cursor.old.rest.now) cursor.new.rest.now) }
{
    if cursor.rest.first() == Some(&b't') {
        cursor.literal(b"true,")?;
    } else {
        cursor.literal(b"false,")?;
    }
    Some(())
}

// Skips what a delivery has before its predecessor.
fn skip_delivery(cursor: &mut Cursor<'_>) -> Option<()>
    ensures { OnSome result (Begins cursor.old.rest.now cursor.new.rest.now) }
{
    number_after(cursor, b"{\"kind\":\"delivery\",\"delivery\":")?;
    number_after(cursor, b",\"position\":")?;
    cursor.literal(b",\"redelivered\":")?;
    skip_flag(cursor)?;
    Some(())
}

// Skips the number and the kind of a line of one of several queues.
fn skip_queue(cursor: &mut Cursor<'_>) -> Option<()>
    ensures begins { OnSome result (Begins cursor.old.rest.now cursor.new.rest.now) }
    ensures complete { (n : ℕ) (rest : List ℕ)
        → cursor.old.rest.now ≡ codes "{\"queue\":" ++ (decimal n ++ (codes ",\"kind\":\"message\"," ++ rest))
        → n < 2 ^ 64 → (result ≡ Some tt) × (cursor.new.rest.now ≡ rest) }
{
    number_after(cursor, b"{\"queue\":")?;
    cursor.literal(b",\"kind\":\"message\",")?;
    Some(())
}

// Skips the kind of a line of a queue.
fn skip_kind(cursor: &mut Cursor<'_>) -> Option<()>
    ensures begins { OnSome result (Begins cursor.old.rest.now cursor.new.rest.now) }
    ensures complete { (rest : List ℕ) → cursor.old.rest.now ≡ codes "{\"kind\":\"message\"," ++ rest
        → (result ≡ Some tt) × (cursor.new.rest.now ≡ rest) }
{
    cursor.literal(b"{\"kind\":\"message\",")?;
    Some(())
}

// Skips what is before the predecessor.
pub(crate) fn skip_front(cursor: &mut Cursor<'_>) -> Option<()>
    ensures begins { OnSome result (Begins cursor.old.rest.now cursor.new.rest.now) }
    ensures complete { (rest : List ℕ) → cursor.old.rest.now ≡ codes "{\"kind\":\"message\"," ++ rest
        → (result ≡ Some tt) × (cursor.new.rest.now ≡ rest) }
    ensures numbered { (n : ℕ) (rest : List ℕ)
        → cursor.old.rest.now ≡ codes "{\"queue\":" ++ (decimal n ++ (codes ",\"kind\":\"message\"," ++ rest))
        → n < 2 ^ 64 → (result ≡ Some tt) × (cursor.new.rest.now ≡ rest) }
{
    match (cursor.rest.get(2), cursor.rest.get(9)) {
        (Some(b'k'), Some(b'm')) => skip_kind(cursor),
        (Some(b'k'), _) => skip_delivery(cursor),
        (Some(b'q'), _) => skip_queue(cursor),
        _ => cursor.literal(b"{"),
    }
}

// Reads the predecessor, a number in quotes, and the comma.
fn quoted_previous(cursor: &mut Cursor<'_>) -> Option<u64>
    ensures previous { IfSome result (λ n. GivesPrevious cursor.old.rest.now n cursor.new.rest.now) }
    ensures complete { (n : ℕ) (rest : List ℕ)
        → cursor.old.rest.now ≡ codes "\"previous\":\"" ++ (decimal n ++ (codes "\"," ++ rest)) → n < 2 ^ 64
        → (result ≡ Some n) × (cursor.new.rest.now ≡ rest) }
{
    let number = number_after(cursor, b"\"previous\":\"")?;
    cursor.literal(b"\",")?;
    Some(number)
}

// Reads the predecessor, a bare number, and the comma.
fn bare_previous(cursor: &mut Cursor<'_>) -> Option<u64>
    ensures { IfSome result (λ n. GivesPrevious cursor.old.rest.now n cursor.new.rest.now) }
{
    let number = number_after(cursor, b"\"previous\":")?;
    cursor.literal(b",")?;
    Some(number)
}

// Reads the predecessor.
pub(crate) fn previous(cursor: &mut Cursor<'_>) -> Option<u64>
    ensures previous { IfSome result (λ n. GivesPrevious cursor.old.rest.now n cursor.new.rest.now) }
    ensures complete { (n : ℕ) (rest : List ℕ)
        → cursor.old.rest.now ≡ codes "\"previous\":\"" ++ (decimal n ++ (codes "\"," ++ rest)) → n < 2 ^ 64
        → (result ≡ Some n) × (cursor.new.rest.now ≡ rest) }
{
    if cursor.rest.get(11) == Some(&b'"') {
        quoted_previous(cursor)
    } else {
        bare_previous(cursor)
    }
}
