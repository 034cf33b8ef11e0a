//! The endpoints of a link.

ghost use Rattle.std.specs.Prelude.{◌≡◌, ◌<◌, ◌-◌, ◌^◌, ℕ, true, [], ◌∷◌, ◌++◌, List, length, All, sum_by, min, IfOk, IfErr, vec_len};
ghost use Rattle.crossbeam_channel.specs.Claims.{IsSeatAt, view as known};
ghost use Rattle.crossbeam_channel.specs.Ends.{receives_on, sends_on};
ghost use Rattle.cdc_links.specs.declared.errors.LinkFault.TheVariants.{PeerGone, OutOfMemory};
ghost use Rattle.cdc_links.specs.Links.{of_sender, fresh_endpoint, fresh_endpoints, with_sent, with_sender, Takes, TakesIfSome, CanSend, IsAccount};
ghost use Rattle.cdc_links.specs.Rule.{IsPassOf, Received, IsReceiver, HasTakenNone, with_joined, with_all_joined, IsSettled, IsLinkOf};

use crate::errors::{LinkFault, SendRefused};
use crate::messages::{Message, Naming};
use crate::patience::Patience;
use crate::rule::{
    Halts, HandsBack, Knowledge, Parcel, Receives, Ruled, Seats, Sends, Settles, TakesIn,
};
use crossbeam_channel::{Pass, RecvError, RuledReceiver, RuledSender, TryRecvError, bounded_with};
use std::alloc::{AllocError, Global};
use std::hint::spin_loop;
use std::marker::Model;
use std::sync::Wait;

/// A sender's endpoint of a link. Contracts see its link, its number there, and what it has sent so far with what
/// each message names.
pub struct LinkOut<M: Message> {
    number: u64,
    count: u64,
    is_aborted: bool,
    sender: RuledSender<Parcel<M>, Knowledge<M, M::Name>, Ruled>,
    pass: Pass<Parcel<M>, Knowledge<M, M::Name>>,
}

// Written by hand, so that code that drops an endpoint calls this instead of dropping each field itself.
impl<M: Message> Drop for LinkOut<M> {
    fn drop(self) {
        let Self {
            number: _,
            count: _,
            is_aborted: _,
            sender: _,
            pass: _,
        } = self;
    }
}

impl<M: Message> Model for LinkOut<M> {
    ghost use Rattle.std.specs.Prelude.{false};
    ghost use Rattle.cdc_links.specs.Links.{Outgoing};
    ghost use Rattle.cdc_links.specs.Rule.{shown_out, KeepsOut};

    ghost Value = { Outgoing M M.Name };

    ghost view = { λ out. shown_out out.number out.pass };

    ghost invariant = { λ o. KeepsOut M.may_follow false o.sender o.pass o.number o.count };
}

impl<M: Message> LinkOut<M> {
    /// Sends a message, under the name that `K` picks. Blocks while the link is full. If the receiver is gone, the
    /// endpoint was aborted or 2^64-1 messages were sent, it returns the message, and nothing has changed.
    pub fn send<K: Naming<M::Name>, R: Wait>(
        &mut self,
        rt: &R,
        value: M,
    ) -> Result<(), SendRefused<M>>
        requires { M.may_follow self.old.number self.old.sent (value, K.name) }
        ensures sent { IfOk result (λ _. self.new ≡ with_sent self.old (value, K.name)) }
        ensures refused { IfErr result (λ it. (it.value ≡ value) × (self.new ≡ self.old)) }
    {
        if self.is_aborted || self.count == u64::MAX {
            return Err(SendRefused { value });
        }
        let parcel = Parcel::Message {
            sender: self.number,
            value,
        };
        match self
            .sender
            .send_as::<Sends<K>, R>(rt, &mut self.pass, parcel)
        {
            Ok(()) => {
                self.count += 1;
                Ok(())
            }
            Err(refused) => match refused.into_inner() {
                Parcel::Message { sender: _, value } => Err(SendRefused { value }),
                Parcel::Halt => unreachable!(),
            },
        }
    }

    /// How many messages were sent.
    pub fn sent_count(&self) -> u64
        ensures count { result ≡ length self.now.sent }
        ensures lawful { CanSend M.may_follow self.now.number self.now.sent }
    {
        self.count
    }

    /// Aborts the endpoint: notifies the receiver that nothing more comes from it, if there is room for that; it
    /// never blocks. From then on nothing is sent, and a further call does nothing. What was sent so far still counts
    /// as sent.
    pub fn abort<R: Wait>(&mut self, rt: &R)
        ensures { self.new ≡ self.old }
    {
        if self.is_aborted {
            return;
        }
        self.is_aborted = true;
        // If there is no room for it, or nobody to receive it, it is dropped.
        let _ = self
            .sender
            .try_send_as::<Halts, R>(rt, &mut self.pass, Parcel::Halt);
    }

    /// Aborts the endpoint, and then returns what is left of it.
    pub fn hang_up<R: Wait>(self, rt: &R) -> Handed<M>
        ensures { result ≡ self }
    {
        let mut end = self;
        end.abort(rt);
        end.hand_back()
    }

    /// Stops sending without a notice to the receiver, and returns what `settle` needs of the endpoint.
    pub fn hand_back(self) -> Handed<M>
        ensures { result ≡ self }
    {
        let Self {
            number,
            count,
            is_aborted: _,
            sender,
            mut pass,
        } = self;
        sender.another::<HandsBack>(&mut pass);
        Handed {
            number,
            count,
            sender,
            pass,
        }
    }
}

/// What is left of a sender's endpoint that was returned. Contracts see the same of it as of the endpoint.
pub struct Handed<M: Message> {
    number: u64,
    count: u64,
    sender: RuledSender<Parcel<M>, Knowledge<M, M::Name>, Ruled>,
    pass: Pass<Parcel<M>, Knowledge<M, M::Name>>,
}

// Written by hand, as for a sender's endpoint.
impl<M: Message> Drop for Handed<M> {
    fn drop(self) {
        let Self {
            number: _,
            count: _,
            sender: _,
            pass: _,
        } = self;
    }
}

impl<M: Message> Model for Handed<M> {
    ghost use Rattle.std.specs.Prelude.{true};
    ghost use Rattle.cdc_links.specs.Links.{Outgoing};
    ghost use Rattle.cdc_links.specs.Rule.{shown_out, KeepsOut};

    ghost Value = { Outgoing M M.Name };

    ghost view = { λ end. shown_out end.number end.pass };

    ghost invariant = { λ o. KeepsOut M.may_follow true o.sender o.pass o.number o.count };
}

impl<M: Message> Handed<M> {
    /// Joins this endpoint to the receiver's pass, which learns what the link still holds. Returns how many messages
    /// the endpoint has sent.
    fn join(self, pass: &mut Pass<Parcel<M>, Knowledge<M, M::Name>>) -> u64
        requires own { IsPassOf self.link pass.old }
        requires receiver { IsReceiver (known pass.old) }
        ensures table { pass.new.table_id ≡ pass.old.table_id }
        ensures slots { pass.new.me.0.of ≡ pass.old.me.0.of }
        ensures free { pass.new.me.1 ≡ [] }
        ensures joined { known pass.new ≡ with_joined (known pass.old) self }
        ensures settled { IsSettled (known pass.new) }
        ensures count { result ≡ length self.sent }
        ensures lawful { CanSend M.may_follow self.number self.sent }
    {
        let Self {
            number: _,
            count,
            sender,
            pass: other,
        } = self;
        sender.absorb::<TakesIn>(pass, other);
        sender.learn_as::<Settles>(pass);
        count
    }
}

/// The receiver's endpoint of a link. Contracts see its link, how many senders that has, and what was received so
/// far, each message with its sender's number and what it names.
pub struct LinkIn<M: Message> {
    received: u64,
    patience: Patience,
    receiver: RuledReceiver<Parcel<M>, Knowledge<M, M::Name>, Ruled>,
    pass: Pass<Parcel<M>, Knowledge<M, M::Name>>,
}

// Written by hand, as for a sender's endpoint.
impl<M: Message> Drop for LinkIn<M> {
    fn drop(self) {
        let Self {
            received: _,
            patience: _,
            receiver: _,
            pass: _,
        } = self;
    }
}

impl<M: Message> Model for LinkIn<M> {
    ghost use Rattle.cdc_links.specs.Links.{Incoming};
    ghost use Rattle.cdc_links.specs.Rule.{shown_in, KeepsIn};

    ghost Value = { Incoming M M.Name };

    ghost view = { λ into. shown_in into.pass };

    ghost invariant = { λ into. KeepsIn M.may_follow into.receiver into.pass into.received };
}

// Takes the parcel at the front. If there is none, it looks again as often as `patience` allows, and then sleeps
// until there is one.
fn next_parcel<M: Message, R: Wait>(
    rt: &R,
    receiver: &RuledReceiver<Parcel<M>, Knowledge<M, M::Name>, Ruled>,
    pass: &mut Pass<Parcel<M>, Knowledge<M, M::Name>>,
    patience: &mut Patience,
) -> Result<Parcel<M>, RecvError>
    requires channel { IsSeatAt (receives_on receiver.now) pass.old }
    requires receiver { (known pass.old).receives ≡ true }
    ensures channel { IsSeatAt (receives_on receiver.now) pass.new }
    ensures received { IfOk result (λ parcel.
        Received M.may_follow (known pass.old) parcel (known pass.new)) }
    ensures refused { IfErr result (λ _. known pass.new ≡ known pass.old) }
{
    for look in 0..patience.looks() {
        match receiver.try_recv_as::<Receives, R>(rt, pass) {
            Ok(parcel) => {
                if look > 0 {
                    patience.note_found();
                }
                return Ok(parcel);
            }
            Err(TryRecvError::Disconnected) => return Err(RecvError),
            Err(TryRecvError::Empty) => spin_loop(),
        }
    }
    patience.note_sleep();
    receiver.recv_as::<Receives, R>(rt, pass)
}

impl<M: Message> LinkIn<M> {
    /// Receives the message at the front. Blocks while there is none. `PeerGone`: the senders are gone, the next
    /// parcel is the notice that one of them was aborted, or 2^64-1 messages were received. In each case nothing has
    /// changed.
    pub fn receive<R: Wait>(&mut self, rt: &R) -> Result<M, LinkFault>
        ensures received { IfOk result (λ value. Takes M.may_follow self.old value self.new) }
        ensures refused { IfErr result (λ fault. (fault ≡ PeerGone) × (self.new ≡ self.old)) }
    {
        if self.received == u64::MAX {
            return Err(LinkFault::PeerGone);
        }
        match next_parcel(rt, &self.receiver, &mut self.pass, &mut self.patience) {
            Ok(Parcel::Message { sender: _, value }) => {
                self.received += 1;
                Ok(value)
            }
            Ok(Parcel::Halt) | Err(_) => Err(LinkFault::PeerGone),
        }
    }

    /// Receives the message at the front if there is one, and never waits. If there is none, nothing has changed, also
    /// if the senders are gone. `PeerGone`: the next parcel is the notice that a sender was aborted, or 2^64-1 messages
    /// were received. Then nothing has changed either.
    pub fn receive_ready<R: Wait>(&mut self, rt: &R) -> Result<Option<M>, LinkFault>
        ensures received { IfOk result (λ ready. TakesIfSome M.may_follow self.old ready self.new) }
        ensures refused { IfErr result (λ fault. (fault ≡ PeerGone) × (self.new ≡ self.old)) }
    {
        if self.received == u64::MAX {
            return Err(LinkFault::PeerGone);
        }
        match self.receiver.try_recv_as::<Receives, R>(rt, &mut self.pass) {
            Ok(Parcel::Message { sender: _, value }) => {
                self.received += 1;
                Ok(Some(value))
            }
            Ok(Parcel::Halt) => Err(LinkFault::PeerGone),
            Err(_) => Ok(None),
        }
    }

    /// How many messages were received.
    pub fn received_count(&self) -> u64
        ensures count { result ≡ length self.now.received }
        ensures lawful { (j : ℕ) → CanSend M.may_follow j (of_sender j self.now.received) }
    {
        self.received
    }
}

impl<M: Message> LinkIn<M> {
    /// Creates the receiver's endpoint of a link that has no sender yet, and the channel's sender, which `add_sender`
    /// clones.
    fn new(
        alloc: Global,
        capacity: usize,
        patience: Patience,
    ) -> Result<
        (
            RuledSender<Parcel<M>, Knowledge<M, M::Name>, Ruled>,
            LinkIn<M>,
        ),
        AllocError,
    >
        requires { 0 < capacity }
        ensures same { IfOk result (λ ends. IsLinkOf ends.1.link (sends_on ends.0)) }
        ensures empty { IfOk result (λ ends. (ends.1.senders ≡ 0) × (ends.1.received ≡ [])) }
    {
        let (sender, receiver, pass) = bounded_with::<
            Parcel<M>,
            Knowledge<M, M::Name>,
            Ruled,
            Global,
        >(alloc, capacity)?;
        let into = LinkIn {
            received: 0,
            patience,
            receiver,
            pass,
        };
        Ok((sender, into))
    }

    /// Adds a sender to the link, under the next number.
    fn add_sender(
        &mut self,
        sender: &RuledSender<Parcel<M>, Knowledge<M, M::Name>, Ruled>,
        number: u64,
    ) -> Result<LinkOut<M>, AllocError>
        requires same { IsLinkOf self.old.link (sends_on sender.now) }
        requires next { number ≡ self.old.senders }
        ensures end { IfOk result (λ end. end ≡ fresh_endpoint self.old.link number) }
        ensures more { IfOk result (λ _. self.new ≡ with_sender self.old) }
    {
        let sender = sender.try_clone()?;
        let pass = sender.another::<Seats>(&mut self.pass);
        Ok(LinkOut {
            number,
            count: 0,
            is_aborted: false,
            sender,
            pass,
        })
    }
}

/// Creates a link for up to `capacity` messages in transit, and its endpoints: those of the senders, numbered from 0,
/// and that of the receiver. There is one more place for each sender, for the notice that it was aborted, as long as
/// messages don't take these places too.
pub fn link<M: Message>(
    alloc: Global,
    capacity: usize,
    senders: usize,
) -> Result<(Vec<LinkOut<M>>, LinkIn<M>), LinkFault>
    requires capacity { 0 < capacity }
    requires senders { 0 < senders }
    ensures outs { IfOk result (λ ends. ends.0.items ≡ fresh_endpoints ends.1.link senders) }
    ensures into { IfOk result (λ ends. (ends.1.senders ≡ senders) × (ends.1.received ≡ [])) }
    ensures memory { IfErr result (λ fault. fault ≡ OutOfMemory) }
{
    let mut outs = Vec::with_capacity(alloc, senders)?;
    let places = capacity.saturating_add(senders);
    let (sender, mut into) = LinkIn::<M>::new(alloc, places, Patience::new(senders))?;
    while outs.len() < senders {
        let end = into.add_sender(&sender, outs.len() as u64)?;
        outs.push_reserved(end);
    }
    Ok((outs, into))
}

/// How many messages were sent over a link, and how many were received.
#[derive(Clone, Copy, Debug, PartialEq, Eq)]
pub struct Tally {
    /// How many all senders have sent. The count saturates at 2^64-1.
    pub sent: u64,
    /// How many the receiver has received.
    pub received: u64,
}

/// Joins all these endpoints to the receiver's pass. Returns how many messages they have sent, at most 2^64-1.
fn join_all<M: Message>(
    pass: &mut Pass<Parcel<M>, Knowledge<M, M::Name>>,
    handed: Vec<Handed<M>>,
) -> u64
    requires ours { All (λ end. IsPassOf end.link pass.old) handed.items }
    requires free { pass.old.me.1 ≡ [] }
    requires receiver { HasTakenNone (known pass.old) }
    ensures joined { known pass.new ≡ with_all_joined (known pass.old) handed.items }
    ensures settled { 0 < vec_len handed → IsSettled (known pass.new) }
    ensures sent { result ≡ min (2 ^ 64 - 1) (sum_by (λ end. length end.sent) handed.items) }
    ensures lawful { All (λ end. CanSend M.may_follow end.number end.sent) handed.items }
{
    let mut sent: u64 = 0;
    for end in handed {
        sent = sent.saturating_add(end.join(pass));
    }
    sent
}

impl<M: Message> LinkIn<M> {
    /// The body of `settle`. It is a method because only a method can destructure a type that has a `drop`.
    fn settle(self, handed: Vec<Handed<M>>) -> Tally
        requires ours { All (λ end. end.link ≡ self.link) handed.items }
        requires all { vec_len handed ≡ self.senders }
        requires some { 0 < self.senders }
        ensures sent { result.sent ≡ min (2 ^ 64 - 1) (sum_by (λ end. length end.sent) handed.items) }
        ensures received { result.received ≡ length self.received }
        ensures account { (left : List (ℕ × (M × M.Name))) × IsAccount self handed.items left }
        ensures lawful { All (λ end. CanSend M.may_follow end.number end.sent) handed.items }
    {
        let Self {
            received,
            patience: _,
            receiver: _,
            mut pass,
        } = self;
        let sent = join_all(&mut pass, handed);
        Tally { sent, received }
    }
}

/// Takes the receiver's endpoint and those of all senders, and compares what they know.
pub fn settle<M: Message>(into: LinkIn<M>, handed: Vec<Handed<M>>) -> Tally
    requires ours { All (λ end. end.link ≡ into.link) handed.items }
    requires all { vec_len handed ≡ into.senders }
    requires some { 0 < into.senders }
    ensures sent { result.sent ≡ min (2 ^ 64 - 1) (sum_by (λ end. length end.sent) handed.items) }
    ensures received { result.received ≡ length into.received }
    ensures account { (left : List (ℕ × (M × M.Name))) × IsAccount into handed.items left }
    ensures lawful { All (λ end. CanSend M.may_follow end.number end.sent) handed.items }
{
    into.settle(handed)
}
