//! The ledger actor: it answers requests and polls, and closes the ledger once all clients are done.

ghost use Rattle.std.specs.Prelude.{◌≡◌, ◌+◌, ◌<◌, All, [], length};
ghost use Rattle.cdc_actors.specs.Ends.{new_end};
ghost use Rattle.cdc_ledger_actors.specs.Ledger.{first_ledger};

use crate::ends::End;
use cdc_ledger_actors::LedgerCore;
use cdc_links::{LinkIn, LinkOut};
use cdc_traffic::{Reply, ToConnector, ToLedger};
use std::alloc::Global;

/// The ledger actor of a run. Its work is its core: what it has received and sent, the ledger, how many clients
/// aren't done, whether the connector is, and the poll that is kept.
///
/// A turn receives one message, and sends what follows from it. A batch is submitted, and its client gets the reply.
/// A poll for which there is nothing is kept while the ledger is open. It gets its reply once there is something,
/// once the ledger is closed, or once a later poll comes. The ledger is closed once all clients are done. The actor
/// is finished once the connector is done too, and receives nothing from then on. `PeerGone`: a link refused to send
/// or to receive. `OutOfMemory`: there was no memory for a batch or for a reply.
pub type LedgerEnd = End<LedgerCore>;

impl LedgerEnd {
    /// The actor of a ledger that has taken nothing yet. The clients' links are in the order of the clients' numbers,
    /// from 1. On each of these links, and on the connector's, this actor is sender 0.
    pub fn new(
        alloc: Global,
        system: u64,
        inbox: LinkIn<ToLedger>,
        clients: Vec<LinkOut<Reply>>,
        connector: LinkOut<ToConnector>,
    ) -> LedgerEnd
        requires some { 0 < length clients.items }
        requires senders { inbox.senders ≡ length clients.items + 1 }
        requires fresh { inbox.received ≡ [] }
        requires untold { All (λ client. (client.number ≡ 0) × (client.sent ≡ []))
            clients.items }
        requires own { connector.number ≡ 0 }
        requires silent { connector.sent ≡ [] }
        ensures { result ≡ new_end system (first_ledger inbox clients.items connector) }
    {
        End::of(system, LedgerCore::new(alloc, inbox, clients, connector))
    }
}
