//! The broker actor's work: it answers packets and delivers from the queues.

ghost use Rattle.cdc_broker_actors.specs.Broker.{ArrivedWasReceived, EachPacketIsAnswered, UnlostArrives};

mod consumers;
mod cores;
mod links;
mod plans;

pub use consumers::Consumer;
pub use cores::{BrokerCore, BrokerParts};
pub use plans::BrokerPlan;

/// Does nothing: its postconditions hold for whatever packets a broker actor receives, by whatever plan. The packets
/// that arrive at its broker are among these, and all of these if the plan loses no publish. Each packet is answered
/// once.
pub fn broker_actor_laws()
    ensures arrived { ArrivedWasReceived }
    ensures unlost { UnlostArrives }
    ensures answered { EachPacketIsAnswered }
{}
