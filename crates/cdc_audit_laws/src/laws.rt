//! What an audit shows of a stream. The laws are the postconditions of functions that do nothing.

ghost use Rattle.cdc_audit_laws.specs.Laws.{AChangeShows, AcceptedEventsRise, BalancesAreSums, LedgersAreAccepted, NoOtherBalances};
ghost use Rattle.cdc_audit_laws.specs.Laws.{PrefixesAreAccepted, WhatIsLeftOutMovedNothing};
ghost use Rattle.cdc_audit_laws.specs.Soundness.{AcceptedEventsAreALedgers, AcceptedEventsBeginALedgers, AcceptedEventsStartAsALedgers};
ghost use Rattle.cdc_audit_laws.specs.Soundness.{LedgersEventsAreWhole};

/// Does nothing. Every stream that a ledger's events make is accepted, whole and every prefix of it.
pub fn ledgers_are_accepted()
    ensures { LedgersAreAccepted }
{}

/// Does nothing. The converse: events that are accepted are a prefix of a ledger's. A legal history has them, and then
/// perhaps others, which complete a chain or a pulse that is cut off. Their numbers are within their widths, as those
/// of all events are that were read; and if a pulse is cut off, the timestamps don't run out within it. If no chain and no
/// pulse is cut off, a legal history has these events alone. And it always has those before the last chain or pulse.
pub fn accepted_events_are_a_ledgers()
    ensures begin { AcceptedEventsBeginALedgers }
    ensures all { AcceptedEventsAreALedgers }
    ensures start { AcceptedEventsStartAsALedgers }
{}

/// Does nothing. A ledger's events are whole: no chain and no pulse is cut off.
pub fn ledgers_events_are_whole()
    ensures { LedgersEventsAreWhole }
{}

/// Does nothing. Each prefix of an accepted stream is accepted. So what the other laws promise of the last event of a
/// stream holds of every event.
pub fn prefixes_are_accepted()
    ensures { PrefixesAreAccepted }
{}

/// Does nothing. The timestamps of accepted events rise from above 0. So no event occurs twice, and no two are swapped.
pub fn accepted_events_rise()
    ensures { AcceptedEventsRise }
{}

/// Does nothing. If an event that changed an account's balances is left out, and the account has a later event, the
/// stream is refused: at the account's next event, or before it.
pub fn a_change_shows()
    ensures { AChangeShows }
{}

/// Does nothing. The posted balances that accepted events show are the sums of all that they moved. So whatever is left
/// out of a stream, or added to it: if both are accepted up to one event, they moved as much of its accounts.
pub fn balances_are_sums()
    ensures sums { BalancesAreSums }
    ensures moved { WhatIsLeftOutMovedNothing }
{}

/// Does nothing. Of two accepted streams that differ only in balances of their last event, the balances are the same.
pub fn no_other_balances()
    ensures { NoOtherBalances }
{}
