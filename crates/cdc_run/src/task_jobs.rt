//! The work of each actor of a run on its thread.

use crate::actors::Actor;
use crate::gates::Gate;
use crate::jobs::Job;
use crate::scripts::run_script;
use crate::tasks::Task;
use crate::turn_loop::run_to_end;
use cdc_actors::Stop;
use cdc_progress::ProgressStore;
use std::alloc::Global;
use std::sync::Wait;

impl<S: ProgressStore + Send + Drop> Job for Task<S> {
    ghost use Rattle.cdc_run.specs.Tasks.{Leaves, Stops};

    type End = Actor<S>;

    ghost ends_as = { Leaves };

    ghost stops_as = { Stops };

    fn work<R: Wait, G: Gate>(self, rt: &R, alloc: Global, gate: &G) -> Result<Actor<S>, Stop> {
        match self {
            Task::Ledger(end) => Ok(Actor::Ledger(run_to_end(end, rt, alloc, gate)?)),
            Task::Client(client) => {
                let (end, script) = client.into_parts();
                Ok(Actor::Client(run_script(end, script, rt, alloc, gate)?))
            }
            Task::Connector(end) => Ok(Actor::Connector(run_to_end(end, rt, alloc, gate)?)),
            Task::Broker(end) => {
                let mut end = run_to_end(end, rt, alloc, gate)?;
                gate.observe_broker(end.take_notes(alloc));
                Ok(Actor::Broker(end))
            }
            Task::Subscriber(end) => {
                let mut end = run_to_end(end, rt, alloc, gate)?;
                gate.observe_subscriber(end.number(), end.take_notes(alloc));
                Ok(Actor::Subscriber(end))
            }
        }
    }

    fn abort<R: Wait>(self, rt: &R) -> Stop {
        match self {
            Task::Ledger(end) => end.abort(rt),
            Task::Client(client) => client.into_parts().0.abort(rt),
            Task::Connector(end) => end.abort(rt),
            Task::Broker(end) => end.abort(rt),
            Task::Subscriber(end) => end.abort(rt),
        }
    }
}
