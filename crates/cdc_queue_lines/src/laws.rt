//! Laws of the lines of queues, for any event.

ghost use Rattle.cdc_queue_lines.specs.Reading.{EndsRead, MessagesRead};

/// Does nothing: each postcondition holds for every event and every timestamp. The lines of a queue read back as its
/// events, each with the timestamp of the event before it.
pub fn line_laws()
    ensures messages { MessagesRead }
    ensures ends { EndsRead }
{}
