//! What a receiver received, and then what is left in the link, has what each sender sent, in that sender's order.
//! Links are bounded channels with one receiver and any number of senders.
#![tactic(auto)]

mod ends;
pub mod errors;
mod messages;
mod patience;
mod rule;

pub use ends::{Handed, LinkIn, LinkOut, Tally, link, settle};
pub use errors::{LinkFault, SendRefused};
pub use messages::{Message, Naming};
