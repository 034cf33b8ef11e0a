//! What checked following promises. The laws are the postconditions of functions that do nothing.

ghost use Rattle.cdc_checked_laws.specs.Laws.{BaselinesMissNoMoney, CheckedAccountsMissNothing};
ghost use Rattle.cdc_checked_laws.specs.Laws.{CheckedBooksHoldBalances, FollowedBytesMissNoMoney};
ghost use Rattle.cdc_checked_laws.specs.Laws.{CheckedMovementsAreAPrefix, CheckedPartsAreAPrefix};
ghost use Rattle.cdc_checked_laws.specs.Laws.{CheckedPartsMissNothing, FollowedBytesAreChecked};
ghost use Rattle.cdc_checked_laws.specs.Laws.{FollowedBytesMissNothing, LateStreamsAreApplied};
ghost use Rattle.cdc_checked_laws.specs.Laws.{LedgerBindingsAreClosed, MissedEventsAreSilent};
ghost use Rattle.cdc_checked_laws.specs.Laws.{TheNextEventIsApplied, WholePartsAreApplied, WholeStreamsAreApplied};

/// Does nothing. A checked follower receives some of a ledger's events, in any order and number. If it applied an event
/// of an account, the earlier events of the account that it missed moved nothing posted, and released as much as they
/// held. If they held nothing, each of them was silent: it posted, held and released nothing.
pub fn checked_accounts_miss_nothing()
    ensures missed { CheckedAccountsMissNothing }
    ensures silent { MissedEventsAreSilent }
{}

/// Does nothing. The applied events of an account that moved posted money are a prefix of the ledger's: in order,
/// without duplicates or gaps.
pub fn checked_movements_are_a_prefix()
    ensures { CheckedMovementsAreAPrefix }
{}

/// Does nothing. There is no false alarm: a ledger's events that are received in order are all applied.
pub fn whole_streams_are_applied()
    ensures { WholeStreamsAreApplied }
{}

/// Does nothing. The balances that a checked follower knows of an account are the ledger's, as of the account's last
/// applied event.
pub fn checked_books_hold_balances()
    ensures { CheckedBooksHoldBalances }
{}

/// Does nothing. A received event is applied if each earlier event of both its accounts was applied, and no later one.
/// So a lost event that is redelivered is applied, unless a later event of its accounts was applied.
pub fn the_next_event_is_applied()
    ensures { TheNextEventIsApplied }
{}

/// Does nothing. The same holds of a stream that has a part of a ledger's events, if a test chose them that takes each
/// event of an account, or none. A binding on ledgers alone is such a test.
pub fn checked_parts_miss_nothing()
    ensures missed { CheckedPartsMissNothing }
    ensures prefix { CheckedPartsAreAPrefix }
    ensures whole { WholePartsAreApplied }
    ensures ledgers { LedgerBindingsAreClosed }
{}

/// Does nothing. A checked follower of bytes applies what checked following makes of the events of some of the first
/// entries: up to the one at which it stops. So it misses nothing, either; by baseline it misses no posted money.
pub fn followed_bytes_are_checked()
    ensures checked { FollowedBytesAreChecked }
    ensures missed { FollowedBytesMissNothing }
    ensures money { FollowedBytesMissNoMoney }
{}

/// Does nothing. A follower that begins by baseline takes the first event of an account as it is. If it applied two
/// events of an account, those that it missed between them moved nothing posted. What they held need not be what they
/// released. There is no false alarm: a ledger's events that are received in order, from any one on, are all applied.
pub fn baselines_miss_no_money()
    ensures money { BaselinesMissNoMoney }
    ensures whole { LateStreamsAreApplied }
{}
