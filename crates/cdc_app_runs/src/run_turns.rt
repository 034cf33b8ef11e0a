//! What is known of a run besides its report: how many messages came to its subscribers, and what its broker and
//! these saw that didn't go straight through.

use cdc_actors::{Repeats, Story};
use cdc_run::{Gate, Place};
use cdc_types::Limits;
use std::sync::OnceLock;
use std::sync::atomic::{AtomicU64, Ordering};

/// How many turns each subscriber had, and what the broker and the subscribers saw. A turn is one message received.
#[derive(Drop)]
pub struct Turns {
    /// The turns of each subscriber.
    subscribers: [AtomicU64; Limits::SUBSCRIBERS],
    /// What the broker saw, once it has finished.
    story: OnceLock<Story>,
    /// The duplicates that came to each subscriber, once it has finished.
    repeats: [OnceLock<Repeats>; Limits::SUBSCRIBERS],
}

impl Turns {
    pub fn new() -> Turns {
        Turns {
            subscribers: [
                AtomicU64::new(0),
                AtomicU64::new(0),
                AtomicU64::new(0),
                AtomicU64::new(0),
                AtomicU64::new(0),
                AtomicU64::new(0),
                AtomicU64::new(0),
                AtomicU64::new(0),
            ],
            story: OnceLock::new(),
            repeats: [
                OnceLock::new(),
                OnceLock::new(),
                OnceLock::new(),
                OnceLock::new(),
                OnceLock::new(),
                OnceLock::new(),
                OnceLock::new(),
                OnceLock::new(),
            ],
        }
    }

    /// What the broker saw of the publishes. None before it has finished.
    pub fn story(&self) -> Option<&Story> {
        self.story.get()
    }

    /// The duplicates that came to the subscriber of this number, from 1. None before it has finished.
    pub fn repeats(&self, number: u64) -> Option<&Repeats> {
        self.repeats.get(number.wrapping_sub(1) as usize)?.get()
    }

    /// How many deliveries came to the subscriber of this number, from 1, in a run that has succeeded: all its
    /// messages except the last one, which is no delivery.
    pub fn deliveries(&self, number: u64) -> u64 {
        match self.subscribers.get(number.wrapping_sub(1) as usize) {
            Some(turns) => turns.load(Ordering::SeqCst).saturating_sub(1),
            None => 0,
        }
    }
}

impl Gate for Turns {
    fn pass(&self, place: Place, turn: u64) {
        match place {
            Place::Subscriber(number) => {
                if let Some(turns) = self.subscribers.get(number.wrapping_sub(1) as usize) {
                    turns.store(turn, Ordering::SeqCst);
                }
            }
            Place::Ledger | Place::Client(_) | Place::Connector | Place::Broker => {}
        }
    }

    // The turns of the broker and of the connector aren't counted.
    fn is_open(&self) -> bool {
        true
    }

    fn observe_broker(&self, story: Story) {
        let _ = self.story.try_set(story);
    }

    fn observe_subscriber(&self, number: u64, repeats: Repeats) {
        if let Some(place) = self.repeats.get(number.wrapping_sub(1) as usize) {
            let _ = place.try_set(repeats);
        }
    }
}
