//! The public interface of the broker.

ghost use Rattle.std.specs.Prelude.{◌≡◌, ◌-◌, ◌^◌, ◌<◌, ◌≤◌, List, [], ◌∷◌, ◌++◌, All, IfOk, IsSome, OnOk, OnErr, is_some, not, if◌then◌else◌, length, map};
ghost use Rattle.cdc_message.specs.declared.items.Item.{Item as SomeItem};
ghost use Rattle.cdc_message.specs.declared.packets.Packet.TheVariants.{Connect};
ghost use Rattle.cdc_broker.specs.Broker.{HasAccepted, Publishes, accepted_after, connected, empty_broker, published, queue_of, takes_packet, with_queue};
ghost use Rattle.cdc_broker.specs.Kept.{AreServable, HasAcknowledged, counting, done_with_all, gone_after, unfinished};
ghost use Rattle.cdc_broker.specs.Packets.{tag_after as next_tag};
ghost use Rattle.cdc_broker.specs.Queues.{acknowledged, delivered_event, is_unknown, next_delivery, rewound_queue, with_delivery};

use crate::backlog::Backlog;
use crate::queue::Queue;
use cdc_match::Binding;
use cdc_message::{Delivery, Item};
use std::alloc::{AllocError, Global};
use std::marker::Model;

/// Why the broker ignored a publish.
#[derive(Clone, Copy, Debug, PartialEq, Eq)]
pub enum Refusal {
    /// The publish has the number of another connection than the current one.
    WrongConnection,
    /// The publish doesn't have the tag that the broker takes next.
    WrongTag,
}

/// The result of a publish.
#[derive(Clone, Copy, Debug, PartialEq, Eq)]
pub enum Taken {
    /// The item was added to each queue that takes it.
    Accepted,
    /// The broker is unchanged, and the item was dropped.
    Ignored(Refusal),
}

/// A broker in memory, with a queue for each binding, numbered from 1. It stores each accepted item once, no matter
/// how many queues it belongs to, at least until every queue has had it acknowledged. Contracts see the current
/// connection, the tag that the broker takes next, and the queues, with all items that they ever held.
pub struct Broker {
    connection: u64,
    expected: Option<u64>,
    accepted: Backlog,
    queues: Vec<Queue>,
}

// Implemented by hand: code that drops a broker then calls this function instead of repeating the drop of each field.
impl Drop for Broker {
    fn drop(self) {
        let Broker {
            connection: _,
            expected: _,
            accepted: _,
            queues: _,
        } = self;
    }
}

impl Model for Broker {
    ghost use Rattle.std.specs.Prelude.{map};
    ghost use Rattle.cdc_broker.specs.Broker.{BrokerState};

    ghost Value = { BrokerState };

    ghost use Rattle.cdc_broker.specs.Kept.{queue_state, AreServable};

    ghost view = { λ broker. record {
      connection = broker.connection;
      expected = broker.expected;
      queues = map (queue_state broker.accepted.items) broker.queues.items;
    } };

    ghost invariant = { λ broker. AreServable broker.accepted broker.queues.items };
}

/// The tag after this one. `None` at the end: 2^64-1 is never a tag.
fn tag_after(tag: u64) -> Option<u64>
    ensures { result ≡ next_tag tag }
{
    if tag < u64::MAX - 1 {
        Some(tag + 1)
    } else {
        None
    }
}

/// Counts an item that is added to the back of the list, in the queues that it belongs to. `len` is the list's length
/// with this item.
fn count_in(queues: &mut [Queue], item: &Item, len: usize)
    requires { All (λ q. q.len < 2 ^ 64 - 1) queues.old }
    ensures { queues.new ≡ map (counting item.now len) queues.old }
{
    for queue in queues.iter_mut() {
        queue.count(item, len);
    }
}

/// The number of items at the front of a list of this length that no queue asks for again.
fn done_with(queues: &[Queue], len: usize) -> usize
    ensures { result ≡ done_with_all len queues.now }
{
    let mut least = len;
    for queue in queues {
        least = least.min(queue.done_with());
    }
    least
}

/// Lets go of the items that no queue asks for again, if memory is reserved for no further item and they are at least
/// half of those that are left. Only then are all queues looked at. The error is out of memory.
fn make_room(accepted: &mut Backlog, queues: &[Queue]) -> Result<(), AllocError>
    requires { AreServable accepted.old queues.now }
    ensures items { accepted.new.items ≡ accepted.old.items }
    ensures gone { OnOk result (accepted.new.gone ≡ gone_after accepted.old queues.now) }
    ensures servable { AreServable accepted.new queues.now }
    ensures acknowledged { All (HasAcknowledged accepted.new) queues.now }
    ensures fits { length accepted.new.items < 2 ^ 64 - 1 }
{
    if !accepted.is_full() {
        return Ok(());
    }
    let place = done_with(queues, accepted.len());
    if accepted.has_half_before(place) {
        accepted.let_go(place)
    } else {
        Ok(())
    }
}

/// Adds an item at the back of the list, and counts it in the queues that it belongs to. Which items are let go depends
/// only on the queues that have an unacknowledged item: no other queue holds back anything. If memory runs out, only
/// items that no queue asks for again may be let go.
fn add(accepted: &mut Backlog, queues: &mut [Queue], item: Item) -> Result<(), AllocError>
    requires { AreServable accepted.old queues.old }
    ensures items { OnOk result (accepted.new.items ≡ accepted.old.items ++ item ∷ []) }
    ensures queues { OnOk result (queues.new ≡ map (counting item (length accepted.new.items)) queues.old) }
    ensures gone { OnOk result (accepted.new.gone ≡ gone_after accepted.old (unfinished queues.old)) }
    ensures same_items { OnErr result (accepted.new.items ≡ accepted.old.items) }
    ensures same_queues { OnErr result (queues.new ≡ queues.old) }
    ensures servable { AreServable accepted.new queues.new }
{
    make_room(accepted, queues)?;
    accepted.reserve()?;
    count_in(queues, &item, accepted.len() + 1);
    accepted.push_reserved(item);
    Ok(())
}

impl Broker {
    /// A broker with an empty queue for each binding, and no connection. The error is out of memory; without bindings
    /// nothing is allocated.
    pub fn new(alloc: Global, bindings: Vec<Binding>) -> Result<Broker, AllocError>
        ensures state { IfOk result (λ broker. broker ≡ empty_broker bindings.items) }
        ensures accepted { IfOk result (λ broker. HasAccepted broker []) }
        ensures memory { OnErr result (0 < length bindings.items) }
    {
        let mut queues = Vec::with_capacity(alloc, bindings.len())?;
        for binding in bindings {
            queues.push_reserved(Queue::new(binding));
        }
        Ok(Broker {
            connection: 0,
            expected: None,
            accepted: Backlog::new(alloc),
            queues,
        })
    }

    /// Takes a connection if its number is greater than the current one's, which is 0 at first. Tags then start at 1
    /// again. Returns false, and changes nothing, if the connection isn't taken.
    pub fn connect(&mut self, connection: u64) -> bool
        ensures answer { result ≡ takes_packet self.old (Connect connection) }
        ensures state { self.new ≡ (if result then connected connection self.old else self.old) }
        ensures accepted { (accepted : List SomeItem) → HasAccepted self.old accepted
            → HasAccepted self.new accepted }
    {
        if connection <= self.connection {
            return false;
        }
        self.connection = connection;
        self.expected = Some(1);
        true
    }

    /// Takes an item if the publish has the current connection's number and the tag that is taken next. An event is
    /// added to the queues whose bindings match its headers, and an end mark to all queues. The tag that is taken
    /// next then rises by 1, up to 2^64-2: no publish is taken under the tag 2^64-1. Any other publish is ignored. If
    /// memory runs out, nothing changes.
    pub fn publish(
        &mut self,
        alloc: Global,
        connection: u64,
        tag: u64,
        item: Item,
    ) -> Result<Taken, AllocError>
        ensures publishes { Publishes self.old connection tag item result self.new }
        ensures accepted { (accepted : List SomeItem) → HasAccepted self.old accepted
            → HasAccepted self.new (accepted_after accepted item result) }
    {
        if connection != self.connection {
            return Ok(Taken::Ignored(Refusal::WrongConnection));
        }
        if self.expected != Some(tag) {
            return Ok(Taken::Ignored(Refusal::WrongTag));
        }
        self.accept(tag, item)?;
        Ok(Taken::Accepted)
    }

    /// Adds an item to the queues that it belongs to, and takes the next tag from then on.
    fn accept(&mut self, tag: u64, item: Item) -> Result<(), AllocError>
        ensures ok { OnOk result (self.new ≡ published tag item self.old) }
        ensures err { OnErr result (self.new ≡ self.old) }
    {
        add(&mut self.accepted, self.queues.as_mut_slice(), item)?;
        self.expected = tag_after(tag);
        Ok(())
    }

    /// Whether queue `i` has an item to deliver next.
    pub fn has_next(&self, i: usize) -> bool
        requires first { 0 < i }
        requires last { i ≤ length self.now.queues }
        ensures { result ≡ is_some (next_delivery (queue_of self.now i)) }
    {
        self.queues[i - 1].has_next()
    }

    /// Delivers the item at the cursor of queue `i`, with its position, and advances the cursor. Returns `None` if
    /// there is no item at the cursor. Only the copy of an event allocates; if memory runs out, nothing changes.
    pub fn next_for(&mut self, alloc: Global, i: usize) -> Result<Option<Delivery>, AllocError>
        requires first { 0 < i }
        requires last { i ≤ length self.old.queues }
        ensures answer { IfOk result (λ delivery. delivery ≡ next_delivery (queue_of self.old i)) }
        ensures ok { OnOk result (self.new ≡
            with_queue i
            (with_delivery (next_delivery (queue_of self.old i)) (queue_of self.old i)) self.old) }
        ensures err { OnErr result (self.new ≡ self.old) }
        ensures memory { OnErr result (IsSome (delivered_event (next_delivery (queue_of self.old i)))) }
        ensures accepted { (accepted : List SomeItem) → HasAccepted self.old accepted
            → HasAccepted self.new accepted }
    {
        let queue = &mut self.queues[i - 1];
        queue.deliver(alloc, &self.accepted)
    }

    /// Acknowledges all positions of queue `i` up to this one. If the cursor is at one of them, it moves past them.
    /// Returns false, and changes nothing, for position 0 and for a position that wasn't delivered yet.
    pub fn ack(&mut self, i: usize, position: u64) -> bool
        requires first { 0 < i }
        requires last { i ≤ length self.old.queues }
        ensures answer { result ≡ not (is_unknown (queue_of self.old i) position) }
        ensures state { self.new ≡ (if result
            then with_queue i (acknowledged position (queue_of self.old i)) self.old
            else self.old) }
        ensures accepted { (accepted : List SomeItem) → HasAccepted self.old accepted
            → HasAccepted self.new accepted }
    {
        let queue = &mut self.queues[i - 1];
        queue.ack(&self.accepted, position)
    }

    /// Rewinds queue `i` to the first unacknowledged position: everything delivered from there on is delivered again.
    pub fn rewind(&mut self, i: usize)
        requires first { 0 < i }
        requires last { i ≤ length self.old.queues }
        ensures state { self.new ≡ with_queue i (rewound_queue (queue_of self.old i)) self.old }
        ensures accepted { (accepted : List SomeItem) → HasAccepted self.old accepted
            → HasAccepted self.new accepted }
    {
        let queue = &mut self.queues[i - 1];
        queue.rewind();
    }

    /// The number of items that were ever added to queue `i`, including the acknowledged ones.
    pub fn queue_len(&self, i: usize) -> u64
        requires first { 0 < i }
        requires last { i ≤ length self.now.queues }
        ensures { result ≡ length (queue_of self.now i).items }
    {
        self.queues[i - 1].len
    }

    /// The position of queue `i` up to which all are acknowledged, 0 if none is.
    pub fn acked(&self, i: usize) -> u64
        requires first { 0 < i }
        requires last { i ≤ length self.now.queues }
        ensures { result ≡ (queue_of self.now i).cursor.acked }
    {
        self.queues[i - 1].acked.position
    }

    /// The number of the current connection. 0 before the first one.
    pub fn connection(&self) -> u64
        ensures { result ≡ self.now.connection }
    {
        self.connection
    }

    /// The tag that is taken next under the current connection. `None` before the first connection, and after the tag
    /// 2^64-2.
    pub fn next_tag(&self) -> Option<u64>
        ensures { result ≡ self.now.expected }
    {
        self.expected
    }

    pub fn queue_count(&self) -> usize
        ensures { result ≡ length self.now.queues }
    {
        self.queues.len()
    }
}
