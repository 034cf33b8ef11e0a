//! The objects that are printed, one per line.

ghost use Rattle.std.specs.Prelude.{◌≡◌, ◌++◌, List, [], OnOk};
ghost use Rattle.serde_json.specs.Data.{array};
ghost use Rattle.serde_json.specs.Events.{SendsValue};
ghost use Rattle.serde_json.specs.View.{items_of};
ghost use Rattle.std.specs.Prelude.{map};
ghost use Rattle.cdc_output.specs.Lines.{json_line, line_of};
ghost use Rattle.cdc_output.specs.Private.Sending.{AddsLine, entry_value, field_value, members_of};

use itoa::Buffer;
use serde::{Described, Serialize, Serializer};
use serde_json::to_vec;
use std::alloc::{AllocError, Global};

/// A number from a table of results or refusals, and its name there.
#[derive(Clone, Copy)]
pub struct Named {
    pub number: u8,
    pub name: &'static str,
}

/// The value of a member.
#[derive(Clone, Copy)]
pub enum Field<'a> {
    /// A JSON number.
    Number(u64),
    /// A number of 64 or 128 bits, which is written as a string of its decimal digits.
    Wide(u128),
    /// A JSON string.
    Text(&'a str),
    /// A JSON boolean.
    Flag(bool),
    /// An array of objects, each of a number and its name.
    Table(&'a [Named]),
    /// JSON null.
    Null,
}

/// A member of an object: its name and its value.
#[derive(Clone, Copy)]
pub struct Member<'a>(pub &'a str, pub Field<'a>);

/// A line: an object whose first member names its kind.
#[derive(Clone, Copy)]
struct Line<'a> {
    kind: &'a str,
    members: &'a [Member<'a>],
}

impl Described for Named {
    ghost use Rattle.serde_json.specs.Events.{SendsValue};
    ghost use Rattle.cdc_output.specs.Private.Sending.{entry_value};

    ghost writes = { λ entry. SendsValue (entry_value entry) };
}

impl Serialize for Named {
    fn serialize<S: Serializer>(&self, out: &mut S) -> Result<(), S::Error> {
        out.begin_map(Some(2))?;
        out.key("number")?;
        out.u64(self.number.into())?;
        out.key("name")?;
        out.str(self.name)?;
        out.end_map()
    }
}

impl Described for Field<'_> {
    ghost use Rattle.serde_json.specs.Events.{SendsValue};
    ghost use Rattle.cdc_output.specs.Private.Sending.{field_value};

    ghost writes = { λ field. SendsValue (field_value field) };
}

impl Serialize for Field<'_> {
    fn serialize<S: Serializer>(&self, out: &mut S) -> Result<(), S::Error> {
        match self {
            Field::Number(number) => out.u64(*number),
            Field::Wide(number) => out.str(Buffer::new().format(*number)),
            Field::Text(text) => out.str(text),
            Field::Flag(flag) => out.bool(*flag),
            Field::Table(entries) => send_table(out, entries),
            Field::Null => out.unit(),
        }
    }
}

/// Serializes the entries of a table as an array.
fn send_table<S: Serializer>(out: &mut S, entries: &[Named]) -> Result<(), S::Error>
    ensures { OnOk result (SendsValue (array (items_of (map entry_value entries.now)))
        (S.written out.old) (S.written out.new)) }
{
    entries.serialize(out)
}

impl Described for Line<'_> {
    ghost use Rattle.serde_json.specs.Events.{SendsValue};
    ghost use Rattle.cdc_output.specs.Lines.{line_of};
    ghost use Rattle.cdc_output.specs.Private.Sending.{members_of};

    ghost writes = { λ line. SendsValue (line_of line.kind.now (members_of line.members.now)) };
}

impl Serialize for Line<'_> {
    fn serialize<S: Serializer>(&self, out: &mut S) -> Result<(), S::Error> {
        out.begin_map(Some(self.members.len() + 1))?;
        out.key("kind")?;
        out.str(self.kind)?;
        for member in self.members {
            out.key(member.0)?;
            member.1.serialize(out)?;
        }
        out.end_map()
    }
}

/// The lines printed so far.
#[derive(Drop)]
pub struct Lines {
    /// The lines, each with its line feed.
    pub text: Vec<u8>,
}

impl Lines {
    pub fn new(alloc: Global) -> Lines
        ensures { result.text.items ≡ [] }
    {
        Lines {
            text: Vec::new(alloc),
        }
    }

    pub fn into_text(self) -> Vec<u8>
        ensures { result.items ≡ self.text.items }
    {
        let Lines { text } = self;
        text
    }

    /// Adds the line of this kind that has these members.
    pub fn push(
        &mut self,
        alloc: Global,
        kind: &str,
        members: &[Member<'_>],
    ) -> Result<(), AllocError>
        ensures { OnOk result (self.new.text.items
            ≡ self.old.text.items ++ json_line (line_of kind.now (members_of members.now))) }
    {
        push_value(alloc, &mut self.text, &Line { kind, members })
    }
}

/// Adds the line of a value.
pub fn push_value<L: Serialize>(
    alloc: Global,
    text: &mut Vec<u8>,
    value: &L,
) -> Result<(), AllocError>
    ensures { OnOk result (AddsLine (L.writes value.now) text.old.items text.new.items) }
{
    // The members come in order, so the only error of the writer is that memory runs out.
    let line = to_vec(alloc, value).or(Err(AllocError))?;
    text.extend_from_slice(line.as_slice())?;
    text.push(b'\n')?;
    Ok(())
}
