//! The calls that may run out of memory, each made again if it was refused.

ghost use Rattle.std.specs.Prelude.{◌≡◌, IfOk, OnOk, OnErr, Ok, Err, true};
ghost use Rattle.cdc_message.specs.Reading.{read};
ghost use Rattle.cdc_subscriber.specs.Answers.{TakesBody};
ghost use Rattle.cdc_subscriber.specs.Reception.{Reception, next_read, kept_of};

use cdc_match::Binding;
use cdc_message::{Delivery, Packet};
use cdc_subscriber::{Subscriber, TakeError, Taking};
use cdc_types::{Batch, BatchResults, Items};
use std::alloc::{AllocError, Global};

/// What the last call gave, and how many calls were refused because memory ran out: at most two.
#[derive(Drop)]
pub struct Tried<T> {
    pub last: Result<T, AllocError>,
    pub refused: u64,
}

/// What the last call of `take_body` gave, and how many calls were refused because memory ran out: at most two.
#[derive(Clone, Copy)]
pub struct TakenBody {
    pub last: Result<Taking, TakeError>,
    pub refused: u64,
    /// Whether the subscriber's last timestamp and its count stayed the same at the first refusal.
    pub kept: bool,
}

/// Copies items, again if memory ran out.
pub fn copied_items(alloc: Global, items: &Items<u64>) -> Tried<Items<u64>>
    ensures copy { IfOk result.last (λ copy. copy ≡ items.now) }
    ensures again { OnErr result.last (result.refused ≡ 2) }
{
    match items.try_copy(alloc) {
        Ok(copy) => first(copy),
        Err(_) => second(items.try_copy(alloc)),
    }
}

/// Copies a batch, again if memory ran out.
pub fn copied_batch(alloc: Global, batch: &Batch) -> Tried<Batch>
    ensures copy { IfOk result.last (λ copy. copy ≡ batch.now) }
    ensures again { OnErr result.last (result.refused ≡ 2) }
{
    match batch.try_copy(alloc) {
        Ok(copy) => first(copy),
        Err(_) => second(batch.try_copy(alloc)),
    }
}

/// Copies what a ledger answers to a batch, again if memory ran out.
pub fn copied_results(alloc: Global, results: &BatchResults) -> Tried<BatchResults>
    ensures copy { IfOk result.last (λ copy. copy ≡ results.now) }
    ensures again { OnErr result.last (result.refused ≡ 2) }
{
    match results.try_copy(alloc) {
        Ok(copy) => first(copy),
        Err(_) => second(results.try_copy(alloc)),
    }
}

/// Copies a delivery, again if memory ran out.
pub fn copied_delivery(alloc: Global, delivery: &Delivery) -> Tried<Delivery>
    ensures copy { IfOk result.last (λ copy. copy ≡ delivery.now) }
    ensures again { OnErr result.last (result.refused ≡ 2) }
{
    match delivery.try_copy(alloc) {
        Ok(copy) => first(copy),
        Err(_) => second(delivery.try_copy(alloc)),
    }
}

/// Copies a packet, again if memory ran out.
pub fn copied_packet(alloc: Global, packet: &Packet) -> Tried<Packet>
    ensures copy { IfOk result.last (λ copy. copy ≡ packet.now) }
    ensures again { OnErr result.last (result.refused ≡ 2) }
{
    match packet.try_copy(alloc) {
        Ok(copy) => first(copy),
        Err(_) => second(packet.try_copy(alloc)),
    }
}

/// Copies a binding, again if memory ran out.
pub fn copied_binding(alloc: Global, binding: &Binding) -> Tried<Binding>
    ensures copy { IfOk result.last (λ copy. copy ≡ binding.now) }
    ensures again { OnErr result.last (result.refused ≡ 2) }
{
    match binding.try_copy(alloc) {
        Ok(copy) => first(copy),
        Err(_) => second(binding.try_copy(alloc)),
    }
}

/// Passes a body to a subscriber, again if memory ran out. A call that is refused leaves the subscriber as it was.
pub fn taken_body(alloc: Global, subscriber: &mut Subscriber, body: &[u8]) -> TakenBody
    ensures answer { TakesBody subscriber.old (read body.now) result.last }
    ensures stands { (reception : Reception) → subscriber.old ≡ kept_of reception
        → OnOk result.last (subscriber.new ≡ kept_of (next_read reception (read body.now))) }
    ensures err { OnErr result.last (subscriber.new ≡ subscriber.old) }
    ensures kept { result.kept ≡ true }
    ensures again { result.last ≡ Err TakeError.OutOfMemory → result.refused ≡ 2 }
{
    let (last, applied) = (subscriber.last(), subscriber.applied_count());
    match subscriber.take_body(alloc, body) {
        Err(TakeError::OutOfMemory) => {
            let kept = subscriber.last() == last && subscriber.applied_count() == applied;
            let again = subscriber.take_body(alloc, body);
            let refused = if again == Err(TakeError::OutOfMemory) {
                2
            } else {
                1
            };
            TakenBody {
                last: again,
                refused,
                kept,
            }
        }
        answer => TakenBody {
            last: answer,
            refused: 0,
            kept: true,
        },
    }
}

// What the first call gave.
pub(crate) fn first<T>(value: T) -> Tried<T>
    ensures { result ≡ record { last = Ok value; refused = 0 } }
{
    Tried {
        last: Ok(value),
        refused: 0,
    }
}

// What the second call gave, after the first was refused.
pub(crate) fn second<T>(last: Result<T, AllocError>) -> Tried<T>
    ensures last { result.last ≡ last }
    ensures again { OnErr last (result.refused ≡ 2) }
    ensures once { OnOk last (result.refused ≡ 1) }
{
    let refused = if last.is_ok() { 1 } else { 2 };
    Tried { last, refused }
}
