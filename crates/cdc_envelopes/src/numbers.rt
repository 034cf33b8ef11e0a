//! Numbers in an envelope.

ghost use Rattle.std.specs.Prelude.{◌≡◌, ◌<◌, ◌^◌, ◌++◌, ℕ, List, IfSome, decimal, false};
ghost use Rattle.cdc_message.specs.OwnBodies.{begins_with_digit};

use cdc_message::Cursor;

// Reads a number of 64 bits.
#[inline(never)]
fn number_64(cursor: &mut Cursor<'_>) -> Option<u64>
    ensures fits { IfSome result (λ n. n < 2 ^ 64) }
    ensures text { IfSome result (λ n. cursor.old.rest.now ≡ decimal n ++ cursor.new.rest.now) }
    ensures complete { (n : ℕ) (rest : List ℕ) → cursor.old.rest.now ≡ decimal n ++ rest → n < 2 ^ 64
        → begins_with_digit rest ≡ false → (result ≡ Some n) × (cursor.new.rest.now ≡ rest) }
{
    let number = cursor.number()?;
    u64::try_from(number).ok()
}

// Skips this text, and reads the number of 64 bits after it.
#[inline(always)]
pub(crate) fn number_after(cursor: &mut Cursor<'_>, text: &[u8]) -> Option<u64>
    ensures fits { IfSome result (λ n. n < 2 ^ 64) }
    ensures text { IfSome result (λ n. cursor.old.rest.now ≡ text.now ++ (decimal n ++ cursor.new.rest.now)) }
    ensures complete { (n : ℕ) (rest : List ℕ) → cursor.old.rest.now ≡ text.now ++ (decimal n ++ rest) → n < 2 ^ 64
        → begins_with_digit rest ≡ false → (result ≡ Some n) × (cursor.new.rest.now ≡ rest) }
{
    cursor.literal(text)?;
    let number = number_64(cursor)?;
    Some(number)
}
