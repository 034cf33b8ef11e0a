//! What a subscriber may rely on, independent of how the content of its queue reaches it.

ghost use Rattle.cdc_laws.specs.Laws.{AllIsAfterZero, BooksHaveTheirAccounts, BooksHoldBalances};
ghost use Rattle.cdc_laws.specs.Laws.{ClosedSubscribersReceiveNothing, DeliveriesAreReceivedAsReplays, LateBooksHaveTheirAccounts};
ghost use Rattle.cdc_laws.specs.Laws.{LegalHistoriesAreSound, SubscribersOfReplaysAreFaithful};
ghost use Rattle.cdc_laws.specs.Laws.{SubscribersOfReplaysKeepWhatTheyApply, WholeQueuesEnd};

/// Does nothing; each postcondition holds for every history that a ledger makes, for every binding and for whatever
/// was received. If a broker took a replay of what the ledger has to publish after the start, and a subscriber
/// received a replay of its queue, it has applied a prefix of the events after the start that match its binding: in
/// order, none twice, and all of them once it has received the end mark. If every event matches the binding, its book
/// has exactly their accounts, with the balances that the ledger had at the last event applied. Once it is closed,
/// nothing changes that.
pub fn subscriber_laws()
    ensures sound { LegalHistoriesAreSound }
    ensures faithful { SubscribersOfReplaysAreFaithful }
    ensures keeps { SubscribersOfReplaysKeepWhatTheyApply }
    ensures whole { WholeQueuesEnd }
    ensures zero { AllIsAfterZero }
    ensures receives { DeliveriesAreReceivedAsReplays }
    ensures fixed { ClosedSubscribersReceiveNothing }
{}

/// Does nothing; each postcondition holds for the book of any prefix of a ledger's events, or of those after a start.
pub fn book_laws()
    ensures holds { BooksHoldBalances }
    ensures has { BooksHaveTheirAccounts }
    ensures late { LateBooksHaveTheirAccounts }
{}
