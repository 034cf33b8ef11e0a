//! The body, with which an envelope ends.

ghost use Rattle.std.specs.Prelude.{◌≡◌, ◌++◌, IfSome, codes};
ghost use Rattle.std.specs.Bool.{OnTrue};
ghost use Rattle.std.specs.Str.{IsUtf8};
ghost use Rattle.cdc_types.specs.declared.events.Event.{Event};
ghost use Rattle.cdc_message.specs.Bodies.{body};
ghost use Rattle.cdc_message.specs.Widths.{EventFits};
ghost use Rattle.cdc_envelopes.specs.Private.Members.{EndsWithBody};

use cdc_message::{Cursor, own_event};
use cdc_types::Event;

// Whether bytes are UTF-8.
fn is_text(bytes: &[u8]) -> bool
    ensures { OnTrue result (IsUtf8 bytes.now) }
{
    str::from_utf8(bytes).is_ok()
}

// Reads a body in the documented layout, and the end of the envelope.
fn documented_body(text: &[u8]) -> Option<Event>
    ensures { IfSome result (λ event. EndsWithBody text.now event) }
{
    if !is_text(text) {
        return None;
    }
    let mut cursor = Cursor { rest: text };
    let event = cursor.documented_event()?;
    cursor.literal(b"}")?;
    if cursor.rest.is_empty() {
        Some(event)
    } else {
        None
    }
}

// Reads a body as it is printed, and the end of the envelope.
fn own_body(text: &[u8]) -> Option<Event>
    ensures text { IfSome result (λ event. (text.now ≡ body event ++ codes "}") × EventFits event) }
    ensures complete { (event : Event) → text.now ≡ body event ++ codes "}" → EventFits event → result ≡ Some event }
{
    own_event(text.strip_suffix(b"}")?)
}

// Reads the body and the end of the envelope.
pub(crate) fn last_body(text: &[u8]) -> Option<Event>
    ensures body { IfSome result (λ event. EndsWithBody text.now event) }
    ensures complete { (event : Event) → text.now ≡ body event ++ codes "}" → EventFits event → result ≡ Some event }
{
    match own_body(text) {
        Some(event) => Some(event),
        None => documented_body(text),
    }
}
