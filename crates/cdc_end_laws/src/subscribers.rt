//! What the subscribers of a ledger hold in the end.

ghost use Rattle.cdc_end_laws.specs.Subscribers.{AllClosesDecide, BooksAreTheLedgers, ClosesDecide};
ghost use Rattle.cdc_end_laws.specs.Subscribers.{ReportedBooksAreTheLedgers};

/// Does nothing. What a subscriber of a finished run keeps is determined by the ledger, the start, its binding and its
/// close alone. If it is to close after N events and its feed has N, it is closed, has applied exactly the first N and
/// has not received the end. Otherwise it has applied its whole feed, has received the end and isn't closed.
pub fn closes_decide()
    ensures one { ClosesDecide }
    ensures all { AllClosesDecide }
{}

/// Does nothing. If a subscriber takes every event, from the start 0 on, its book has for every number the balances
/// that the ledger had at the subscriber's last timestamp. A number that isn't in the book counts as four zeros. The
/// same holds of a subscriber of a finished run, whether it was closed or not.
pub fn books_are_the_ledgers()
    ensures faithful { BooksAreTheLedgers }
    ensures reported { ReportedBooksAreTheLedgers }
{}
