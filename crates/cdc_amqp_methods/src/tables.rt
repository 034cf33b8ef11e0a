//! Tables of fields, such as the headers of a message.

ghost use Rattle.cdc_amqp_frames.specs.Fields.{Finds};
ghost use Rattle.cdc_amqp_methods.specs.Tables as spec;
ghost use Rattle.cdc_amqp_methods.specs.Tables.{view, views};

use cdc_amqp_frames::{bytes_at, long_at, short_at, u8_at};

/// A field of a table.
#[derive(Clone, Copy, Debug)]
pub struct Field<'a> {
    /// The name of the field.
    pub name: &'a [u8],
    /// The letter of the value's type, such as `S` for a long string.
    pub letter: u8,
    /// The bytes of the value, without the length of a string or a table.
    pub value: &'a [u8],
}

// The value of a field with this letter, by the letters that RabbitMQ uses.
#[tactic(auto, unfolding(crate::specs::Tables::value_at))]
fn value_at(letter: u8, bytes: &[u8]) -> Option<(&[u8], &[u8])>
    ensures { Finds (λ x. (x.0.now, x.1.now)) result (spec.value_at letter bytes.now) }
{
    match letter {
        b'V' => Some((&[], bytes)),
        b't' | b'b' | b'B' => bytes_at(1, bytes),
        b's' | b'u' => bytes_at(2, bytes),
        b'I' | b'i' | b'f' => bytes_at(4, bytes),
        b'D' => bytes_at(5, bytes),
        b'l' | b'd' | b'T' => bytes_at(8, bytes),
        b'S' | b'x' | b'F' | b'A' => long_at(bytes),
        _ => None,
    }
}

/// The first field of a table, and the bytes after it. `None`: the bytes are cut off, or the type is unknown.
#[tactic(auto, unfolding(crate::specs::Tables::field_at))]
pub fn field_at(bytes: &[u8]) -> Option<(Field<'_>, &[u8])>
    ensures { Finds (λ x. (view x.0, x.1.now)) result (spec.field_at bytes.now) }
{
    let (name, rest) = short_at(bytes)?;
    let (letter, rest) = u8_at(rest)?;
    let (value, rest) = value_at(letter, rest)?;
    Some((
        Field {
            name,
            letter,
            value,
        },
        rest,
    ))
}

/// The first field of this name in a table. `Some(None)`: no field has it. `None`: the bytes up to there are no table.
pub fn find_field<'a>(name: &[u8], bytes: &'a [u8]) -> Option<Option<Field<'a>>>
    ensures { Finds views result (spec.find_field name.now bytes.now) }
{
    let mut rest = bytes;
    for _ in 0..bytes.len() {
        if rest.is_empty() {
            return Some(None);
        }
        let (field, after) = field_at(rest)?;
        if field.name == name {
            return Some(Some(field));
        }
        rest = after;
    }
    Some(None)
}
