//! The names of the kinds of event in messages.

ghost use Rattle.std.specs.Prelude.{◌≡◌};
ghost use Rattle.cdc_message.specs.Kinds as spec;

use cdc_types::EventKind;

const KINDS: [EventKind; 5] = [
    EventKind::SinglePhase,
    EventKind::TwoPhasePending,
    EventKind::TwoPhasePosted,
    EventKind::TwoPhaseVoided,
    EventKind::TwoPhaseExpired,
];

/// The text of a kind (TigerBeetle, Change Data Capture, `type`).
pub fn kind_text(kind: EventKind) -> &'static str
    ensures { result.now ≡ spec.kind_text kind }
{
    match kind {
        EventKind::SinglePhase => "single_phase",
        EventKind::TwoPhasePending => "two_phase_pending",
        EventKind::TwoPhasePosted => "two_phase_posted",
        EventKind::TwoPhaseVoided => "two_phase_voided",
        EventKind::TwoPhaseExpired => "two_phase_expired",
    }
}

/// The kind with this text. `None` if there is none.
pub fn kind_named(text: &str) -> Option<EventKind>
    ensures { result ≡ spec.kind_named text.now }
{
    kind_of(text.as_bytes())
}

// The same for a text that is given as bytes.
pub(crate) fn kind_of(text: &[u8]) -> Option<EventKind>
    ensures { result ≡ spec.kind_named text.now }
{
    KINDS
        .iter()
        .copied()
        .find(|kind| kind_text(*kind).as_bytes() == text)
}
