//! A connector actor: it polls the ledger for events and publishes them to the broker, session after session.

ghost use Rattle.std.specs.Prelude.{◌≡◌, []};
ghost use Rattle.cdc_connector_actor.specs.Connector.{first_connector};
ghost use Rattle.cdc_actors.specs.Ends.{new_end};
ghost use Rattle.cdc_types.specs.Windows.{IsWindow};

use crate::ends::End;
use cdc_connector_actor::ConnectorCore;
use cdc_links::{LinkIn, LinkOut};
use cdc_progress::ProgressStore;
use cdc_traffic::{ToBroker, ToConnector, ToLedger};
use cdc_types::EventTimestamp;

/// A connector actor of a run. Its work: what it has sent to the ledger and to the broker, what it has received from
/// them, what its store holds, and what its session keeps.
///
/// The first turn starts a session. Each later one receives the next message. Then all that follows is sent. A turn
/// that may receive further messages takes all confirms that have come before it publishes more. `PeerGone`: a link
/// refused to send or to receive, or a confirm came that answers no packet. `OutOfMemory`: there was no memory for a
/// session or for a packet, or in the store. `Store`: the store refused to load or to save. `SessionsExhausted`: there is no
/// further number for a session. `StartNotAllowed`: a start was given to the first session, and progress is already
/// saved.
pub type ConnectorEnd<S> = End<ConnectorCore<S>>;

impl<S: ProgressStore> ConnectorEnd<S> {
    /// A connector actor over its store that has sent nothing yet. Its first session starts after the timestamp
    /// `start`, if there is one; later sessions don't use it. A session waits for `window` events at a time. The
    /// connector restarts right after its publish packets of the numbers in `restart_after`, which are counted from 1
    /// over the whole run: it drops its session and starts the next.
    pub fn new(
        system: u64,
        inbox: LinkIn<ToConnector>,
        polls: LinkOut<ToLedger>,
        packets: LinkOut<ToBroker>,
        store: S,
        start: Option<EventTimestamp>,
        window: usize,
        restart_after: Vec<u64>,
    ) -> ConnectorEnd<S>
        requires fresh { inbox.received ≡ [] }
        requires two { inbox.senders ≡ 2 }
        requires to_ledger { polls.number ≡ 0 }
        requires asked { polls.sent ≡ [] }
        requires to_broker { packets.number ≡ 0 }
        requires published { packets.sent ≡ [] }
        requires window { IsWindow window }
        ensures { result ≡ new_end system (first_connector inbox polls packets (S.held store)
            (S.is_honest store) (S.risks store) start window restart_after.items) }
    {
        End::of(
            system,
            ConnectorCore::new(inbox, polls, packets, store, start, window, restart_after),
        )
    }
}

impl<S: ProgressStore> ConnectorEnd<S> {
    /// How many publish packets it has sent, over all its sessions.
    pub fn published(&self) -> u64
        ensures { result ≡ self.now.work.published }
    {
        self.work.published()
    }
}
