//! The money that an event moves, in words.

ghost use Rattle.std.specs.Prelude.{◌≡◌, ◌++◌, ℕ, List, decimal, option_map};
ghost use Rattle.std.specs.Option.{option_copied};
ghost use Rattle.cdc_ledger.specs.Events.{events};
ghost use Rattle.cdc_diagnostics.specs.Movements.{event_at, kind_text, movement_of, movement_text};
ghost use Rattle.cdc_diagnostics.specs.Texts.{Holds};

use crate::texts::Text;
use cdc_ledger::Ledger;
use cdc_log::EventLog;
use cdc_types::{Event, EventKind};

/// What an event did with money.
#[derive(Clone, Copy)]
pub(crate) struct Movement {
    kind: EventKind,
    /// The transfer's id. For an expiry it is that of the pending one.
    transfer: u128,
    /// The id of the pending transfer that was posted or voided, or 0.
    pending: u128,
    /// How much was moved, held, posted or released.
    amount: u128,
    /// The id of the account that is debited.
    debit: u128,
    /// The id of the account that is credited.
    credit: u128,
}

impl Movement {
    pub(crate) fn of(event: &Event) -> Movement
        ensures { result ≡ movement_of event.now }
    {
        Movement {
            kind: event.kind,
            transfer: event.transfer.id,
            pending: event.transfer.pending_id,
            amount: event.transfer.amount,
            debit: event.debit_account.id,
            credit: event.credit_account.id,
        }
    }

    /// The movement of the event of this timestamp, in nanoseconds. None if the ledger has no such event.
    pub(crate) fn at(ledger: &Ledger, timestamp: u64) -> Option<Movement>
        ensures { result ≡ option_map movement_of (event_at timestamp (events ledger.now)) }
    {
        event_at(ledger.log(), timestamp).map(Movement::of)
    }

    /// Adds it in words, such as `transfer 7 pending, 100 from 1 to 2`.
    pub(crate) fn push_to(self, text: &mut Text)
        ensures { (bytes : List ℕ) → Holds text.old bytes
            → Holds text.new (bytes ++ movement_text self) }
    {
        text.push("transfer ");
        text.push_number(self.transfer);
        self.push_kind(text);
        text.push(", ");
        text.push_number(self.amount);
        text.push(" from ");
        text.push_number(self.debit);
        text.push(" to ");
        text.push_number(self.credit);
    }

    /// Adds what happened to the transfer.
    fn push_kind(self, text: &mut Text)
        ensures { (bytes : List ℕ) → Holds text.old bytes
            → Holds text.new (bytes ++ kind_text self.kind self.pending) }
    {
        match self.kind {
            EventKind::SinglePhase => {}
            EventKind::TwoPhasePending => text.push(" pending"),
            EventKind::TwoPhasePosted => self.push_settled(" posts ", text),
            EventKind::TwoPhaseVoided => self.push_settled(" voids ", text),
            EventKind::TwoPhaseExpired => text.push(" expired"),
        }
    }

    /// Adds which pending transfer it settles.
    fn push_settled(self, words: &str, text: &mut Text)
        ensures { (bytes : List ℕ) → Holds text.old bytes
            → Holds text.new (bytes ++ (words.now ++ decimal self.pending)) }
    {
        text.push(words);
        text.push_number(self.pending);
    }
}

/// The event of this timestamp, in nanoseconds. None if the log has no such event.
fn event_at(log: &EventLog, timestamp: u64) -> Option<&Event>
    ensures { option_copied result ≡ event_at timestamp log.now.events }
{
    if timestamp > log.last_timestamp() {
        return None;
    }
    let event = log.get(log.first_after(timestamp.saturating_sub(1)))?;
    if event.timestamp == timestamp {
        Some(event)
    } else {
        None
    }
}
