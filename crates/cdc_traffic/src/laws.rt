//! Laws that follow from what senders may send.

ghost use Rattle.cdc_traffic.specs.Laws.{ConversationsEnd, PastsGoOn, PollRepliesAreReadings, RepliesGoOn};

/// Does nothing; each postcondition holds for whatever the senders of a run's links may send. The histories that
/// messages name are sound, and each goes on from those before it of the same sender. The ledger's replies to polls
/// are readings of its history, then and later. Nothing follows the last message of a conversation.
pub fn traffic_laws()
    ensures pasts { PastsGoOn }
    ensures replies { RepliesGoOn }
    ensures readings { PollRepliesAreReadings }
    ensures ends { ConversationsEnd (Unit {0}) }
{}
