//! Texts that a statement may quote.

ghost use Rattle.std.specs.Prelude.{◌≡◌};
ghost use Rattle.cdc_sql.specs.Plain as spec;

/// Whether a byte may stand between quotes: a lower-case letter, a digit, `_`, `=` or a space.
fn is_plain_byte(byte: u8) -> bool
    ensures { result ≡ spec.is_plain_byte byte }
{
    b'a' <= byte && byte <= b'z'
        || b'0' <= byte && byte <= b'9'
        || byte == b'_'
        || byte == b'='
        || byte == b' '
}

/// Whether a text may stand between quotes: it has only lower-case letters, digits, `_`, `=` and spaces, as the text of
/// each binding does.
pub fn is_plain(text: &[u8]) -> bool
    ensures { result ≡ spec.is_plain text.now }
{
    text.iter().all(|byte| is_plain_byte(*byte))
}
