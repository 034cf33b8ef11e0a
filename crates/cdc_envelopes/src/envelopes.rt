//! Events in envelopes.

ghost use Rattle.std.specs.Prelude.{◌≡◌, ◌<◌, ◌^◌, ℕ, IfSome};
ghost use Rattle.cdc_types.specs.declared.events.Event.{Event as SomeEvent};
ghost use Rattle.cdc_message.specs.Widths.{EventFits};
ghost use Rattle.cdc_envelopes.specs.Envelopes.{IsEnvelope};
ghost use Rattle.cdc_envelopes.specs.Texts.{numbered_line};
ghost use Rattle.cdc_queue_lines.specs.Lines.{message_line};

use crate::bodies::last_body;
use crate::fronts::{previous as read_previous, skip_front};
use crate::headers::skip_middle;
use cdc_message::Cursor;
use cdc_types::Event;

/// An event, and the timestamp of the event before it in its queue.
#[derive(Clone, Copy, Debug, PartialEq, Eq)]
pub struct Enveloped {
    pub event: Event,
    /// In nanoseconds; 0 if there is no event before it.
    pub previous: u64,
}

/// The event of an envelope, and its predecessor. It reads lines as `messages --queue` and `chain` print them, lines of
/// deliveries, and objects with `previous` and `body` alone. The members have to be in that order, without white space
/// around them; the body is in the layout that `encode` writes or in the documented one. `None` for everything else,
/// which has to be read as JSON.
pub fn fast_envelope(line: &[u8]) -> Option<Enveloped>
    ensures envelope { IfSome result (λ read. IsEnvelope line.now read.event read.previous) }
    ensures complete { (previous : ℕ) (event : SomeEvent) → previous < 2 ^ 64 → EventFits event
        → line.now ≡ message_line previous event
        → result ≡ Some (record { event = event; previous = previous }) }
    ensures numbered { (queue previous : ℕ) (event : SomeEvent) → queue < 2 ^ 64 → previous < 2 ^ 64 → EventFits event
        → line.now ≡ numbered_line queue previous event
        → result ≡ Some (record { event = event; previous = previous }) }
{
    let mut cursor = Cursor { rest: line };
    skip_front(&mut cursor)?;
    let previous = read_previous(&mut cursor)?;
    skip_middle(&mut cursor)?;
    cursor.literal(b"\"body\":")?;
    let event = last_body(cursor.rest)?;
    Some(Enveloped { event, previous })
}
