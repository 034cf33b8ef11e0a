//! The parameters of random steps.

/// The parameters of random steps. The same parameters, script and window give the same steps on every machine.
#[derive(Clone, Copy)]
pub struct Chances {
    /// The seed of the random numbers.
    pub seed: u64,
    /// The greatest number of random steps.
    pub steps: u64,
    /// How many faults are injected among the steps, if there is room for as many.
    pub faults: u64,
    /// Whether further steps follow these, until every subscriber has received the end-of-stream marker. If so, no
    /// subscriber is closed, and the first session starts before all events, so each subscriber receives all of its
    /// events.
    pub to_end: bool,
}
