//! What becomes of a delivery.

ghost use Rattle.std.specs.Prelude.{◌≡◌, ◌≢◌, IfOk, IfErr};
ghost use Rattle.cdc_amqp_dialogue.specs.Deliveries as deliveries;
ghost use Rattle.cdc_amqp_dialogue.specs.Serving.{TakesBy};
ghost use Rattle.cdc_amqp_dialogue.specs.Steps.{KeepsNothing, StandsStill};
ghost use Rattle.cdc_amqp_dialogue.specs.Taking as spec;

use crate::deliveries::{delivery_count, delivery_entry};
use crate::errors::ConsumeFailure;
use crate::keepers::Keeper;
use cdc_amqp_consumer::{Consumer, Outcome};
use cdc_follow::{Entry, LineError};
use std::alloc::Global;

/// Why following stops at a delivery.
#[derive(Clone, Copy, Debug, PartialEq, Eq)]
pub enum Reason<R> {
    /// It carries no entry, for this reason.
    BadMessage(LineError),
    /// The follower stops at its entry, for this reason.
    Stopped(R),
}

/// A delivery at which following stops.
#[derive(Clone, Copy, Debug, PartialEq, Eq)]
pub struct Refusal<R> {
    /// The delivery tag.
    pub tag: u64,
    /// Whether the message was delivered before.
    pub redelivered: bool,
    /// How often it was delivered before, if the queue counts that.
    pub delivery_count: Option<u64>,
    /// Why following stops at it.
    pub reason: Reason<R>,
}

/// What became of a delivery.
#[derive(Clone, Copy, Debug, PartialEq, Eq)]
pub enum Taking<R> {
    /// The follower has taken this entry.
    Taken(Entry),
    /// The delivery with this tag carries no entry, for this reason, and is rejected. Nothing changes.
    Parked(u64, LineError),
    /// Following stops at it. Nothing changes.
    Refused(Refusal<R>),
    /// Following had stopped before. Nothing changes.
    Ignored,
}

// Following stops at the last delivery of a consumer.
fn refusal_of<R: Copy>(consumer: &Consumer, reason: Reason<R>) -> Refusal<R>
    ensures { result ≡ spec.refusal_of consumer.now reason }
{
    Refusal {
        tag: consumer.tag(),
        redelivered: consumer.redelivered(),
        delivery_count: delivery_count(consumer.headers()),
        reason,
    }
}

// What becomes of an entry at which following stops for this reason, if it does.
fn taking_by<R: Copy>(consumer: &Consumer, entry: Entry, stop: Option<R>) -> Taking<R>
    ensures { result ≡ spec.taking_by consumer.now entry stop }
{
    match stop {
        None => Taking::Taken(entry),
        Some(why) => Taking::Refused(refusal_of(consumer, Reason::Stopped(why))),
    }
}

// What becomes of a delivery that carries no entry for this reason.
fn bad_taking<R: Copy>(
    parks: bool,
    consumer: &Consumer,
    error: LineError,
) -> Result<Taking<R>, ConsumeFailure>
    ensures bad { IfOk result (λ taking. (taking ≡ spec.bad_taking parks consumer.now error)
        × (error ≢ LineError.OutOfMemory)) }
    ensures err { IfErr result (λ why. why ≡ ConsumeFailure.OutOfMemory) }
{
    if error == LineError::OutOfMemory {
        return Err(ConsumeFailure::OutOfMemory);
    }
    if parks {
        Ok(Taking::Parked(consumer.tag(), error))
    } else {
        Ok(Taking::Refused(refusal_of(consumer, Reason::BadMessage(error))))
    }
}

// Parks the last delivery of a consumer, which carries no entry for this reason, or stops at it.
fn refuse_or_park<K: Keeper>(
    setup: &K::Setup,
    parks: bool,
    consumer: &Consumer,
    error: LineError,
    keeper: &mut K,
) -> Result<Taking<K::Stop>, ConsumeFailure>
    ensures bad { IfOk result (λ taking. (taking ≡ spec.bad_taking parks consumer.now error)
        × (error ≢ LineError.OutOfMemory)) }
    ensures err { IfErr result (λ why. why ≡ ConsumeFailure.OutOfMemory) }
    ensures follower { StandsStill (K.stands setup.now) keeper.old keeper.new }
    ensures kept { KeepsNothing (K.has_kept setup.now) keeper.old keeper.new }
    ensures fits { K.fits setup.now keeper.old → K.fits setup.now keeper.new }
{
    let taking = bad_taking(parks, consumer, error)?;
    if parks {
        keeper.note_parked(consumer, error);
    }
    Ok(taking)
}

// Takes the entry of the last delivery of a consumer.
fn take_entry<K: Keeper>(
    setup: &K::Setup,
    consumer: &Consumer,
    entry: Entry,
    keeper: &mut K,
) -> Result<Taking<K::Stop>, ConsumeFailure>
    ensures taking { IfOk result (λ taking. (state : K.State) → K.stands setup.now keeper.old state
        → (taking ≡ spec.taking_by consumer.now entry ((K.rules setup.now).stop state entry consumer.now.tag))
        × K.stands setup.now keeper.new (spec.follower_after (K.rules setup.now) state taking)) }
    ensures kept { KeepsNothing (K.has_kept setup.now) keeper.old keeper.new }
    ensures fits { K.fits setup.now keeper.old → K.fits setup.now keeper.new }
    ensures err { IfErr result (λ why. (why ≡ ConsumeFailure.OutOfMemory)
        × StandsStill (K.stands setup.now) keeper.old keeper.new) }
{
    match keeper.take(setup, consumer, &entry) {
        Ok(stop) => Ok(taking_by(consumer, entry, stop)),
        Err(_) => Err(ConsumeFailure::OutOfMemory),
    }
}

// Takes the last delivery of a consumer.
#[tactic(auto, unfolding(crate::specs::Taking::taking_of))]
fn take_delivery<K: Keeper>(
    alloc: Global,
    setup: &K::Setup,
    parks: bool,
    consumer: &Consumer,
    keeper: &mut K,
) -> Result<Taking<K::Stop>, ConsumeFailure>
    ensures taking { IfOk result (λ taking. (state : K.State) → K.stands setup.now keeper.old state
        → (taking ≡ spec.taking_of_read (K.rules setup.now) parks state consumer.now
        (deliveries.delivery_entry (K.rules setup.now).chained (spec.delivery_of consumer.now)))
        × K.stands setup.now keeper.new (spec.follower_after (K.rules setup.now) state taking)) }
    ensures kept { KeepsNothing (K.has_kept setup.now) keeper.old keeper.new }
    ensures fits { K.fits setup.now keeper.old → K.fits setup.now keeper.new }
    ensures err { IfErr result (λ why. (why ≡ ConsumeFailure.OutOfMemory)
        × StandsStill (K.stands setup.now) keeper.old keeper.new) }
{
    let entry = delivery_entry(
        alloc,
        K::is_chained(setup),
        consumer.headers(),
        consumer.message_type(),
        consumer.content(),
    );
    match entry {
        Ok(entry) => take_entry(setup, consumer, entry, keeper),
        Err(error) => refuse_or_park(setup, parks, consumer, error, keeper),
    }
}

/// Takes the last delivery of a consumer, if a frame of which this came has completed it. `parks`: a delivery that
/// carries no entry is parked; otherwise following stops at it.
#[tactic(auto, unfolding(crate::specs::Taking::taking_of))]
pub(crate) fn take_if_delivered<K: Keeper>(
    alloc: Global,
    setup: &K::Setup,
    parks: bool,
    stop: Option<Refusal<K::Stop>>,
    outcome: Outcome,
    consumer: &Consumer,
    keeper: &mut K,
) -> Result<Taking<K::Stop>, ConsumeFailure>
    ensures taking { IfOk result (TakesBy (K.rules setup.now) parks stop outcome consumer.now
        (K.stands setup.now keeper.old) (K.stands setup.now keeper.new)) }
    ensures kept { KeepsNothing (K.has_kept setup.now) keeper.old keeper.new }
    ensures fits { K.fits setup.now keeper.old → K.fits setup.now keeper.new }
    ensures err { IfErr result (λ why. (why ≡ ConsumeFailure.OutOfMemory)
        × StandsStill (K.stands setup.now) keeper.old keeper.new) }
{
    if stop.is_some() {
        return Ok(Taking::Ignored);
    }
    match outcome {
        Outcome::Delivered => take_delivery(alloc, setup, parks, consumer, keeper),
        Outcome::GoesOn | Outcome::Ended(_) => Ok(Taking::Ignored),
    }
}
