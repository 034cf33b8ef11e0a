//! Laws of lists of items in which some are late or redelivered, for any sender and any receiver.

ghost use Rattle.cdc_message.specs.Laws.{SameItemsAreEqual, FirstsAreAPrefix, FirstsRise, ReplaysCompose};

/// Does nothing: each postcondition holds for every list of items. A path that loses, duplicates and resends items
/// delivers a replay of what the ledger publishes. These laws state that its receiver loses nothing by that.
pub fn replay_laws()
    ensures same { SameItemsAreEqual }
    ensures prefix { FirstsAreAPrefix }
    ensures rises { FirstsRise }
    ensures composes { ReplaysCompose }
{}
