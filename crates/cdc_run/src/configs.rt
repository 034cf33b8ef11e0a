//! The configuration of a run.

ghost use Rattle.std.specs.Prelude.{◌↔◌, IsTrue};
ghost use Rattle.cdc_run.specs.Configs.{Fits};

use cdc_match::Binding;
use cdc_types::{EventTimestamp, Limits};

/// The configuration of a run.
#[derive(Drop)]
pub struct Config {
    /// Distinguishes one system of actors from another. A caller that settles actors of two systems together gives
    /// them different numbers.
    pub system: u64,
    /// The bindings of the subscribers, in order: 1 to 8.
    pub bindings: Vec<Binding>,
    /// How many clients submit batches: 1 to 4.
    pub clients: u64,
    /// For how many events the connector's session may wait at a time: 1 to 64.
    pub window: usize,
    /// How many deliveries of a queue may be without an acknowledgement: 1 to 64.
    pub prefetch: u64,
    /// The timestamp, in nanoseconds, that the connector's first session is to start after. If one is given and
    /// progress is saved, the run fails with `StartNotAllowed`.
    pub start: Option<EventTimestamp>,
}

impl Config {
    /// Whether a run can be made of it: of 1 to 4 clients, 1 to 8 subscribers, window and prefetch 1 to 64.
    pub fn fits(&self) -> bool
        ensures { IsTrue result ↔ Fits self.now }
    {
        let subscribers = self.bindings.len();
        1 <= self.clients
            && self.clients <= Limits::CLIENTS
            && 1 <= subscribers
            && subscribers <= Limits::SUBSCRIBERS
            && 1 <= self.window
            && self.window <= Limits::WINDOW
            && 1 <= self.prefetch
            && self.prefetch <= Limits::PREFETCH
    }
}
