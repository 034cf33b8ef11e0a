//! The name of the schema that has the tables.

ghost use Rattle.std.specs.Prelude.{◌≡◌, ◌==◌, ◌&&◌, Some, None, if◌then◌else◌, length, not, slice_index};
ghost use Rattle.std.specs.List.{list_all};
ghost use Rattle.cdc_sql.specs.Names as spec;

/// The name of a schema: lower-case letters, digits and `_`, of which the first is no digit.
#[derive(Drop)]
pub struct SchemaName {
    text: Vec<u8>,
}

/// Whether a byte is a digit.
fn is_digit(byte: u8) -> bool
    ensures { result ≡ spec.is_digit byte }
{
    b'0' <= byte && byte <= b'9'
}

/// Whether a byte may stand in a name.
fn is_in_name(byte: u8) -> bool
    ensures { result ≡ spec.is_in_name byte }
{
    b'a' <= byte && byte <= b'z' || byte == b'_' || is_digit(byte)
}

/// Whether a text has a first byte, which is no digit.
fn begins_as_name(text: &[u8]) -> bool
    ensures { result ≡ (not (length text.now == 0) && not (spec.is_digit (slice_index text.now 0))) }
{
    !text.is_empty() && !is_digit(text[0])
}

/// Whether each byte of a text may stand in a name.
fn are_in_name(text: &[u8]) -> bool
    ensures { result ≡ list_all spec.is_in_name text.now }
{
    text.iter().all(|byte| is_in_name(*byte))
}

/// Whether a text is a name.
fn is_name(text: &[u8]) -> bool
    ensures { result ≡ spec.is_name text.now }
{
    begins_as_name(text) && are_in_name(text)
}

impl SchemaName {
    /// The name with this text. `None`: it is no name of a schema.
    pub fn new(text: Vec<u8>) -> Option<SchemaName>
        ensures { result ≡ (if spec.is_name text.items then Some (record { text = text }) else None) }
    {
        if is_name(text.as_slice()) {
            Some(SchemaName { text })
        } else {
            None
        }
    }

    /// The name's text.
    pub fn text(&self) -> &[u8]
        ensures { result.now ≡ self.now.text.items }
    {
        self.text.as_slice()
    }
}
