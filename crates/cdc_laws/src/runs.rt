//! Laws of a run from a connector to its subscribers, independent of how packets, confirms and deliveries are
//! carried.

ghost use Rattle.cdc_laws.specs.RunLaws.{ExtensionsGoOn, ReplaysOfLinesBegin, ReplaysOfLinesEnd};
ghost use Rattle.cdc_laws.specs.RunLaws.{RunsStayOnLongerLines, RunsStayUnderConfirms};
ghost use Rattle.cdc_laws.specs.RunLaws.{SubscribersOfRunsAreFaithful, TakenOfRunsIsAReplay};

/// Does nothing; each postcondition holds for every list of packets that sessions of a connector make from what a
/// ledger has to publish after a start. Whatever arrives of them at a broker, late, again or not at all: if only what
/// the broker took is confirmed to the connector, then what it took is a replay of what there is to publish, and each
/// of its subscribers is faithful. A run stays one as more is confirmed, and as the ledger goes on.
pub fn run_laws()
    ensures taken { TakenOfRunsIsAReplay }
    ensures begins { ReplaysOfLinesBegin }
    ensures ends { ReplaysOfLinesEnd }
    ensures confirmed { RunsStayUnderConfirms }
    ensures longer { RunsStayOnLongerLines }
    ensures extended { ExtensionsGoOn }
    ensures faithful { SubscribersOfRunsAreFaithful }
{}
