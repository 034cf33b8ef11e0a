//! What the receiver of a link learns of its senders.

use cdc_links::{LinkIn, Message};
use std::sync::Wait;

/// Whether the receiver learns that a sender is gone, after at most three messages.
pub fn learns_of_a_loss<M: Message, R: Wait>(rt: &R, into: &mut LinkIn<M>) -> bool {
    for _ in 0..4 {
        if into.receive(rt).is_err() {
            return true;
        }
    }
    false
}
