//! Laws of followers of a ledger's events. They are the postconditions of functions that do nothing.

ghost use Rattle.cdc_follow_laws.specs.Chains.{ChainedLinesNamePrevious, FollowedStreamsAreChains};
ghost use Rattle.cdc_follow_laws.specs.Chains.{LateFollowersKeepAPrefix};
ghost use Rattle.cdc_follow_laws.specs.Chains.{WhateverBytesComeAreAChain, WhateverComesIsAChain};
ghost use Rattle.cdc_follow_laws.specs.Laws.{FollowersHoldBalances, PrefixesHoldBalances};
ghost use Rattle.cdc_follow_laws.specs.Laws.{LedgerEventsRise, LedgerQueuesArriveAsPrefixes};

/// Does nothing. Whatever entries of the chained queue of all events of a ledger reach a follower, in whatever order,
/// number and choice: if its binding takes every event, its book has for every account the balances that the ledger
/// had as of the follower's last timestamp. An account that isn't in the book counts as four zeros. The same holds of
/// every state that keeps a prefix of that queue.
pub fn followers_hold_balances()
    ensures begins { FollowersHoldBalances }
    ensures keeps { PrefixesHoldBalances }
{}

/// Does nothing. The timestamps of a ledger's events rise from above 0. So whatever lines of the text of a queue of
/// these events reach a follower, it keeps a prefix of the queue, if the numbers of the events fit their fields.
pub fn ledger_events_are_rising()
    ensures rising { LedgerEventsRise }
    ensures arrives { LedgerQueuesArriveAsPrefixes }
{}

/// Does nothing. Whatever entries reach a follower, in whatever order, number and choice, if each names a timestamp as
/// that of the event before it: what it sees is a chain. Each event that it applies or passes by is later than the one
/// before and names that one's timestamp, from the last event seen on, and the end is received only if it names the
/// last one's. Nothing is assumed of where the entries come from: each is compared with what was seen. The same holds
/// of a follower that resumes.
pub fn whatever_comes_is_a_chain()
    ensures { WhateverComesIsAChain }
{}

/// Does nothing. The same holds of a follower that goes through such entries of a stream, wherever it stops.
pub fn followed_streams_are_chains()
    ensures { FollowedStreamsAreChains }
{}

/// Does nothing. The same holds of any bytes that a follower of a chained stream reads, since each entry that it reads
/// names such a timestamp.
pub fn whatever_bytes_come_are_a_chain()
    ensures lines { ChainedLinesNamePrevious }
    ensures bytes { WhateverBytesComeAreAChain }
{}

/// Does nothing. A follower that begins after some events of a chained queue, as one with `--after` does, keeps a prefix
/// of the later ones, whatever entries of the queue reach it, in whatever order, number and choice. It has applied just
/// those of the prefix that its binding takes, and the prefix is all of them once it has received the end. A follower
/// that resumes is one that got all entries in one go.
pub fn late_followers_keep_a_prefix()
    ensures { LateFollowersKeepAPrefix }
{}
