//! The rule of a link: what each pass knows, and what it learns in each step. Only a `Parcel` has a value when a
//! program runs.

use crate::messages::{Message, Naming};
use crossbeam_channel::protocol::{Join, Lesson, Outcome, Protocol, Split};
use std::collections::LinkedList;
use std::marker::PhantomData;

/// What is in transit over a link.
#[derive(Drop)]
pub enum Parcel<M> {
    /// A message, with the number of its sender.
    Message { sender: u64, value: M },
    /// The notice that a sender was aborted. It counts as no message.
    Halt,
}

/// What a pass knows. A sender's pass knows its number, what it has sent, and whether it was returned. The receiver's
/// pass knows what it has received from whom, how many senders there are, and what the senders that it joined have
/// sent.
pub struct Knowledge<M, N> {
    pub sends: bool,
    pub closed: bool,
    pub number: u64,
    pub sent: LinkedList<(M, N)>,
    pub receives: bool,
    pub received: LinkedList<(u64, (M, N))>,
    pub given: u64,
    pub joined: LinkedList<(u64, LinkedList<(M, N)>)>,
}

/// The rule of a link, which ties what was received to what each sender has sent.
pub struct Ruled;

impl<M: Message> Protocol<Parcel<M>, Knowledge<M, M::Name>> for Ruled {
    ghost use Rattle.cdc_links.specs.Rule.{IsRuled, receiving};
    ghost use Rattle.std.specs.Prelude.{[]};

    ghost holds = { IsRuled M.may_follow };

    ghost first = { receiving [] 0 [] };
}

/// The step in which the receiver's pass makes a sender's.
pub struct Seats;

impl<M, N> Split<Knowledge<M, N>> for Seats {
    ghost use Rattle.cdc_links.specs.Rule.{receiving, sending};
    ghost use Rattle.std.specs.Prelude.{[], ◌+◌, false};

    ghost left = { λ v. receiving v.received (v.given + 1) v.joined };

    ghost right = { λ v. sending v.given [] false };
}

/// The step in which a sender's pass becomes one that was returned.
pub struct HandsBack;

impl<M, N> Split<Knowledge<M, N>> for HandsBack {
    ghost use Rattle.cdc_links.specs.Rule.{sending, nobody};
    ghost use Rattle.std.specs.Prelude.{true};

    ghost left = { λ v. sending v.number v.sent true };

    ghost right = { λ v. nobody };
}

/// The step in which the receiver's pass joins one that was returned.
pub struct TakesIn;

impl<M, N> Join<Knowledge<M, N>> for TakesIn {
    ghost use Rattle.cdc_links.specs.Rule.{receiving, nobody};
    ghost use Rattle.std.specs.Prelude.{[], ◌∷◌, ◌++◌};

    ghost both = { λ v w. receiving v.received v.given (v.joined ++ (w.number, w.sent) ∷ []) };

    ghost spent = { nobody };
}

/// The step of a send: its pass learns that it has sent the message, under the name that was picked.
pub struct Sends<K> {
    of: PhantomData<K>,
}

impl<M, N, K: Naming<N>> Outcome<Parcel<M>, Knowledge<M, N>> for Sends<K> {
    ghost use Rattle.cdc_links.specs.Rule.{Sent};

    ghost then = { λ v x w. Sent K.name v x w };
}

impl<M, N, K: Naming<N>> Lesson<Parcel<M>, Knowledge<M, N>> for Sends<K> {
    ghost use Rattle.std.specs.Prelude.{⊤};

    ghost fact = { λ v items. ⊤ };
}

/// The step of an abort: what its pass knows stays as it is.
pub struct Halts;

impl<M, N> Outcome<Parcel<M>, Knowledge<M, N>> for Halts {
    ghost use Rattle.std.specs.Prelude.{◌≡◌};

    ghost then = { λ v x w. w ≡ v };
}

impl<M, N> Lesson<Parcel<M>, Knowledge<M, N>> for Halts {
    ghost use Rattle.std.specs.Prelude.{⊤};

    ghost fact = { λ v items. ⊤ };
}

/// The step of a receive: its pass learns who has sent the message, under which name, and that it could follow; or
/// nothing, if a sender was aborted.
pub struct Receives;

impl<M: Message> Outcome<Parcel<M>, Knowledge<M, M::Name>> for Receives {
    ghost use Rattle.cdc_links.specs.Rule.{Received};

    ghost then = { Received M.may_follow };
}

impl<M, N> Lesson<Parcel<M>, Knowledge<M, N>> for Receives {
    ghost use Rattle.std.specs.Prelude.{⊤};

    ghost fact = { λ v items. ⊤ };
}

/// The step in which the receiver's pass learns what is still in the link.
pub struct Settles;

impl<M: Message> Lesson<Parcel<M>, Knowledge<M, M::Name>> for Settles {
    ghost use Rattle.cdc_links.specs.Rule.{IsSettled};

    ghost fact = { λ v items. IsSettled v };
}
