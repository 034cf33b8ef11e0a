//! How far actors have come, whether they have met a fault or not.

ghost use Rattle.cdc_broker_actors.specs.Broker.SoFar.{BrokersComeSoFar};
ghost use Rattle.cdc_ledger_actors.specs.Client.SoFar.{ClientsComeSoFar};
ghost use Rattle.cdc_connector_actor.specs.Connector.SoFar.{ConnectorsComeSoFar};
ghost use Rattle.cdc_ledger_actors.specs.Ledger.SoFar.{LedgersComeSoFar};
ghost use Rattle.cdc_broker_actors.specs.Subscriber.SoFar.{SubscribersComeSoFar};

/// Does nothing: its postconditions are laws of an actor between two turns and after one that has failed. All that
/// they state of what it has sent and received so far holds at any time.
pub fn so_far_laws()
    ensures broker { BrokersComeSoFar }
    ensures client { ClientsComeSoFar }
    ensures connector { ConnectorsComeSoFar }
    ensures ledger { LedgersComeSoFar }
    ensures subscriber { SubscribersComeSoFar }
{}
