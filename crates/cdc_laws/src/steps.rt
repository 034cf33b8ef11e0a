//! What each step of a connector, a broker, a queue and a subscriber preserves.

ghost use Rattle.cdc_laws.specs.StepLaws.{AcknowledgementsCome, BrokersBegin, ConfirmsAreSent};
ghost use Rattle.cdc_laws.specs.StepLaws.{ConfirmsCome, ConnectorsBegin, ConnectorsGoOn};
ghost use Rattle.cdc_laws.specs.StepLaws.{ConnectorsMakeRuns, NextIsDelivered};
ghost use Rattle.cdc_laws.specs.StepLaws.{DeliveriesAreTaken, PacketsAreIgnored, PacketsAreSent};
ghost use Rattle.cdc_laws.specs.StepLaws.{PacketsAreTaken, ProgressIsSaved, QueuesBegin};
ghost use Rattle.cdc_laws.specs.StepLaws.{QueuesRewind, QueuesGrow, QueuesMove};
ghost use Rattle.cdc_laws.specs.StepLaws.{ReadingsAreLeft, ReadingsAreOffered, SessionsAreOffered};
ghost use Rattle.cdc_laws.specs.StepLaws.{SessionsEnd, SessionsHalfStart, SessionsStart};
ghost use Rattle.cdc_laws.specs.StepLaws.{SubscribersBegin, SubscribersClose};

/// Does nothing; each postcondition states that a connector still keeps to its ledger's history after a step. The
/// last ones state that it so makes a connector run, and that it needs to know no more of the history than what it
/// was answered.
pub fn connector_laws()
    ensures begins { ConnectorsBegin }
    ensures goes_on { ConnectorsGoOn }
    ensures ends { SessionsEnd }
    ensures starts { SessionsStart }
    ensures half_starts { SessionsHalfStart }
    ensures is_offered { SessionsAreOffered }
    ensures sends { PacketsAreSent }
    ensures receives { ConfirmsCome }
    ensures saves { ProgressIsSaved }
    ensures runs { ConnectorsMakeRuns }
    ensures reads { ReadingsAreOffered }
    ensures leaves { ReadingsAreLeft }
{}

/// Does nothing; each postcondition states an invariant of a broker that a step preserves: its state is what it took
/// of what arrived, and it has confirmed nothing else.
pub fn broker_laws()
    ensures begins { BrokersBegin }
    ensures takes { PacketsAreTaken }
    ensures passes { PacketsAreIgnored }
    ensures confirms { ConfirmsAreSent }
    ensures moves { QueuesMove }
{}

/// Does nothing; each postcondition states an invariant that a step preserves: what a queue has delivered is a replay
/// of it, or a subscriber has received the first part of what it took.
pub fn delivery_laws()
    ensures begins { QueuesBegin }
    ensures grows { QueuesGrow }
    ensures delivers { NextIsDelivered }
    ensures acknowledges { AcknowledgementsCome }
    ensures goes_back { QueuesRewind }
    ensures subscribes { SubscribersBegin }
    ensures takes { DeliveriesAreTaken }
    ensures closes { SubscribersClose }
{}
