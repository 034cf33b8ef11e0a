//! What is left of an actor of a run that stopped before it had finished.

ghost use Rattle.std.specs.Prelude.{◌≡◌};

use crate::met::Met;
use cdc_actor_work::Place;
use std::marker::Model;

/// Proof that an actor stopped before it had finished, and why. Only the actor itself gives one, as it is dropped, so
/// a holder of one has had that actor.
#[derive(Drop)]
pub struct Stop {
    system: u64,
    place: Place,
    met: Met,
}

impl Model for Stop {
    ghost use Rattle.cdc_actors.specs.Stops.{StopState};

    ghost Value = { StopState };

    ghost view = { λ stop. record { system = stop.system; place = stop.place; met = stop.met } };
}

impl Stop {
    pub(crate) fn of(system: u64, place: Place, met: Met) -> Stop
        ensures { result ≡ record { system = system; place = place; met = met } }
    {
        Stop { system, place, met }
    }

    /// The number of the actor's system.
    pub fn system(&self) -> u64
        ensures { result ≡ self.now.system }
    {
        self.system
    }

    /// The actor's place in the run.
    pub fn place(&self) -> Place
        ensures { result ≡ self.now.place }
    {
        self.place
    }

    /// Why it stopped.
    pub fn met(&self) -> Met
        ensures { result ≡ self.now.met }
    {
        self.met
    }
}
