//! What the connector's session does with the ledger's events, and with the broker's answers.

ghost use Rattle.std.specs.Prelude.{◌≡◌, ◌≤◌, IfErr, length};
ghost use Rattle.cdc_publisher.specs.Courses.{Course, after_answer};
ghost use Rattle.cdc_publisher.specs.Stands.{StandsFor};
ghost use Rattle.cdc_world.specs.Next.{counts};
ghost use Rattle.cdc_world.specs.Turns.{IsNotOfStore, Offers, Sends};

use crate::steps::StepError;
use cdc_laws::read;
use cdc_ledger::Ledger;
use cdc_message::{Answer, Confirm, Packet};
use cdc_publisher::Session;
use std::alloc::Global;

/// Offers the session the events that it wants of the ledger's log.
pub(crate) fn poll(alloc: Global, ledger: &Ledger, session: &mut Session) -> Result<(), StepError>
    ensures offers { Offers ledger.now session.old result session.new }
    ensures refusals { IfErr result IsNotOfStore }
{
    let poll = session.wants().ok_or(StepError::NotEnabled)?;
    let offer = read(alloc, ledger, poll)?;
    session.offer(&offer.events, offer.complete);
    Ok(())
}

/// The session sends its next packet.
pub(crate) fn publish(
    alloc: Global,
    session: &mut Session,
    packets: &mut Vec<Packet>,
) -> Result<(), StepError>
    ensures sends { Sends session.old packets.old.items result session.new packets.new.items }
    ensures grows { length packets.old.items ≤ length packets.new.items }
    ensures refusals { IfErr result IsNotOfStore }
{
    if !session.has_packet() {
        return Err(StepError::NotEnabled);
    }
    packets.reserve(1)?;
    if let Some(packet) = session.next_packet(alloc)? {
        packets.push_reserved(packet);
    }
    Ok(())
}

/// A confirm comes to the session. Returns whether it counts.
pub(crate) fn take_confirm(session: &mut Session, confirm: Confirm) -> bool
    ensures answer { (course : Course) → StandsFor session.old course
        → result ≡ counts course confirm.session confirm.answer }
    ensures stands { (course : Course) → StandsFor session.old course
        → StandsFor session.new (after_answer course confirm.session confirm.answer) }
{
    match confirm.answer {
        Answer::Confirmed(tag) => session.confirm(confirm.session, tag),
        _ => false,
    }
}
