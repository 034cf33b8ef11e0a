//! What actors of a run have sent at any time, whether a turn has failed or not, and when all have finished.

ghost use Rattle.cdc_end_laws.specs.Cut.{CutOffSubscribersAreFaithful};
ghost use Rattle.cdc_end_laws.specs.Polls.{FinishedLedgersReplyToAll, PollsLackOne};
ghost use Rattle.cdc_end_laws.specs.Said.{BrokersLackOne, ClientsLackOne, ConnectorsKeepToRuns, LedgersLackOne, SubscribersLackOne};

use cdc_actors::{
    broker_actor_laws, ledger_actor_laws, order_laws, so_far_laws, subscriber_actor_laws,
};
use cdc_laws::{run_laws, subscriber_laws};
use cdc_traffic::traffic_laws;

/// Does nothing. Wherever a run is cut off, what actors have sent is a prefix of what they owe for all that they have
/// received: the ledger lacks one reply to each client at most, the broker one confirm, and a subscriber one
/// acknowledgement. A client has sent one message more than it has kept replies, at most. What a connector over an
/// honest store has sent is always that of a connector run, if the run began at its start.
pub fn actors_lack_one_message()
    ensures ledger { LedgersLackOne }
    ensures client { ClientsLackOne }
    ensures connector { ConnectorsKeepToRuns }
    ensures broker { BrokersLackOne }
    ensures subscriber { SubscribersLackOne }
{
    so_far_laws();
    order_laws();
}

/// Does nothing. The ledger's actor replies to polls in their order. Between two turns one poll at most has no reply,
/// and once the actor has finished each has one.
pub fn finished_ledgers_reply_to_all()
    ensures turns { PollsLackOne }
    ensures finished { FinishedLedgersReplyToAll }
{
    ledger_actor_laws();
}

/// Does nothing. Wherever a run is cut off, whichever of its actors have failed, each subscriber is faithful to what
/// the ledger has then: it has applied a prefix of the events that follow the start and match its binding. This needs
/// an honest store, and a run that began at its start.
pub fn cut_off_runs_are_faithful()
    ensures { CutOffSubscribersAreFaithful }
{
    actors_lack_one_message();
    so_far_laws();
    broker_actor_laws();
    subscriber_actor_laws();
    traffic_laws();
    run_laws();
    subscriber_laws();
}
