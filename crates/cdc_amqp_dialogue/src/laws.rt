//! Laws of consuming: the postconditions of functions that do nothing.

ghost use Rattle.cdc_amqp_dialogue.specs.Laws.{AcknowledgedIsSaved};

use crate::keepers::Keeper;

/// Does nothing. Whatever frames a server sends, and whatever happens between them: each acknowledgement is of
/// deliveries whose entries the saved follower has taken.
pub fn acknowledged_is_saved<K: Keeper>()
    ensures { AcknowledgedIsSaved K.State K.Stop }
{}
