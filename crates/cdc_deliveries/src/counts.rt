//! How many of the events that were delivered to a subscriber it applied.

ghost use Rattle.std.specs.Prelude.{◌≡◌};
ghost use Rattle.cdc_deliveries.specs.Counts.{applies_event, brings_event, count};

use crate::arrivals::is_closed;
use crate::steps::DeliveryStep;
use cdc_subscriber::Taking;
use cdc_world::ItemName;

/// How many deliveries of events a subscriber took before its close, and how many of them it applied.
#[derive(Clone, Copy, Debug, PartialEq, Eq)]
pub struct Count {
    pub applied: usize,
    pub deliveries: usize,
}

/// Counts the deliveries of events to the subscriber of this number, from 1, among these steps.
pub fn count_of(steps: &[DeliveryStep], subscriber: u64) -> Count
    ensures { result ≡ count subscriber steps.now }
{
    Count {
        applied: steps
            .iter()
            .filter(|step| step.subscriber() == subscriber && step.applies_event())
            .count(),
        deliveries: steps
            .iter()
            .filter(|step| step.subscriber() == subscriber && step.brings_event())
            .count(),
    }
}

impl DeliveryStep {
    /// Whether the subscriber took an event while it was open.
    pub fn brings_event(self) -> bool
        ensures { result ≡ brings_event self }
    {
        match self {
            DeliveryStep::Taken {
                item: ItemName::Event(_),
                answer,
                ..
            } => !is_closed(answer),
            _ => false,
        }
    }

    /// Whether the subscriber took an event and applied it.
    pub fn applies_event(self) -> bool
        ensures { result ≡ applies_event self }
    {
        match self {
            DeliveryStep::Taken {
                answer: Taking::Applied,
                ..
            } => true,
            _ => false,
        }
    }
}
