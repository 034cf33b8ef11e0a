//! What a run comes to, from its lists alone.

ghost use Rattle.cdc_run.specs.Books.{BooksSettle};
ghost use Rattle.cdc_run.specs.Passing.{EndsCome, EndsPass};
ghost use Rattle.cdc_run.specs.ClientReplies.{ClientsAreReplied, OrdersAreOfClients};
ghost use Rattle.cdc_run.specs.Subscribing.{SubscribersCome};

use cdc_actors::{
    broker_actor_laws, connector_actor_laws, ledger_actor_laws, order_laws, subscriber_actor_laws,
};
use cdc_laws::{connector_laws, run_laws};
use cdc_traffic::traffic_laws;

/// Does nothing: its postconditions hold for the actors of a run that have all finished, whatever the order in which
/// their threads came. There is one order of all batches, that in which the ledger actor has received them. Each
/// client has the replies to its own batches in it, without gaps or duplicates, and the order has no batch of anyone
/// else. Each subscriber is faithful against the ledger after the start. It has ended if it wasn't asked to close. If
/// it was, it is closed with exactly as many events as it was asked for, if there are as many for it.
pub fn settle_laws()
    ensures replied { ClientsAreReplied }
    ensures of_clients { OrdersAreOfClients }
    ensures books { BooksSettle }
    ensures come { SubscribersCome }
{
    order_laws();
    ledger_actor_laws();
    traffic_laws();
    connector_laws();
    run_laws();
    subscriber_actor_laws();
}

/// Does nothing: its postconditions hold for the actors of a run that have all finished and whose links were settled,
/// if the connector's store held nothing, or a timestamp that is its start, as the run began. Ledger, connector and
/// broker have kept to their parts. Each subscriber is as `settle_laws` states, against the ledger of the ledger actor.
pub fn passing_laws()
    ensures pass { EndsPass }
    ensures come { EndsCome }
{
    connector_actor_laws();
    broker_actor_laws();
    settle_laws();
}
