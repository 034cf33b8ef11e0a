//! What is reported of a run.

ghost use Rattle.std.specs.Prelude.{ℕ, IfErr, IfOk};
ghost use Rattle.cdc_run.specs.Reports.{IsReportOf, IsUnreported};
ghost use Rattle.cdc_run.specs.Wirings.{AreSeated, Wiring};

use crate::books::settle_books;
use crate::counts::Counts;
use crate::ends::Ends;
use crate::streams::settle_streams;
use cdc_actors::{Arrival, RunFault};
use cdc_ledger::Ledger;
use cdc_progress::ProgressStore;
use cdc_subscriber::Subscriber;
use cdc_traffic::Reply;
use std::alloc::Global;

/// What a run has come to.
#[derive(Drop)]
pub struct Report {
    /// The ledger, which is closed.
    pub ledger: Ledger,
    /// The client of each batch, in the order in which the ledger took the batches.
    pub order: Vec<u64>,
    /// The replies to each client, in its order.
    pub replies: Vec<Vec<Reply>>,
    /// In the order of their numbers.
    pub subscribers: Vec<Subscriber>,
    /// What each subscriber was delivered until it closed, in order.
    pub deliveries: Vec<Vec<Arrival>>,
    /// How far the run came in what its plan of faults counts.
    pub counts: Counts,
}

/// Puts the actors of a run together, once all have finished. Actors of two systems among them are found by the
/// systems' numbers, which must be different. `NotOneSystem`: one is of another system, is missing, occurs twice or
/// is in another one's place, isn't finished, or has met a fault. `OutOfMemory`: there was no memory to put them
/// together. Refused actors are dropped.
pub fn settle<S: ProgressStore + Drop>(alloc: Global, ends: Ends<S>) -> Result<Report, RunFault>
    requires { (wiring : ℕ → Wiring) × AreSeated wiring ends }
    ensures report { IfOk result (IsReportOf ends) }
    ensures refused { IfErr result (IsUnreported ends) }
{
    let Ends {
        ledger,
        clients,
        connector,
        broker,
        subscribers,
    } = ends;
    let system = ledger.system();
    if connector.system() != system {
        return Err(RunFault::NotOneSystem);
    }
    let counts = Counts::of(alloc, &connector, &broker)?;
    let Some(parts) = connector.into_parts() else {
        return Err(RunFault::NotOneSystem);
    };
    let books = settle_books(alloc, ledger, parts.polls, clients)?;
    let streams = settle_streams(
        alloc,
        system,
        parts.inbox,
        books.connector,
        parts.packets,
        broker,
        subscribers,
    )?;
    Ok(Report {
        ledger: books.ledger,
        order: books.order,
        replies: books.replies,
        subscribers: streams.subscribers,
        deliveries: streams.deliveries,
        counts,
    })
}
