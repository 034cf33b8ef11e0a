//! A gate that the actors of a run pass, turn by turn, and that receives the trace of what they saw.

use cdc_actors::{Place, Repeats, Story};

/// Lets the actors of a run pass. It is called before each turn of each place, counted from 1, on the thread of that
/// place, and may take its time. So a test can hold one actor until another one has come so far.
pub trait Gate {
    /// Returns once the actor of this place may take this turn. A client's turn is one batch. In any other turn the
    /// actor receives one message and sends what follows from it. Only the connector's first turn receives nothing: its
    /// first session begins.
    fn pass(&self, place: Place, turn: u64);

    /// Whether it doesn't matter how many messages the broker and the connector receive in a turn. If so, they receive
    /// up to 64 more that are ready, which is faster; but a broker whose plan repeats deliveries receives one.
    fn is_open(&self) -> bool {
        false
    }

    /// Receives what the broker actor saw of the publishes of the run, once that has finished, on its thread.
    fn observe_broker(&self, story: Story);

    /// Receives which duplicates came to the subscriber of this number, from 1, once its actor has finished, on its
    /// thread.
    fn observe_subscriber(&self, number: u64, repeats: Repeats);
}

/// A gate that holds no actor and drops what it receives.
#[derive(Clone, Copy, Debug)]
pub struct OpenGate;

impl Gate for OpenGate {
    fn pass(&self, _place: Place, _turn: u64) {}

    fn is_open(&self) -> bool {
        true
    }

    fn observe_broker(&self, _story: Story) {}

    fn observe_subscriber(&self, _number: u64, _repeats: Repeats) {}
}
