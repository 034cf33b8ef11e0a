//! Whatever bytes the server sends, nothing is acknowledged before it is saved, and the follower is the fold over just
//! the deliveries that came. The crate consumes a queue over a reader and a writer, by AMQP 0-9-1.
#![tactic(auto)]

mod deliveries;
mod dialogue;
mod errors;
mod keepers;
pub mod laws;
mod taking;
mod writing;

pub use deliveries::{delivery_count, delivery_entry};
pub use dialogue::{FrameReader, PROTOCOL, Pace, consume};
pub use errors::ConsumeFailure;
pub use keepers::Keeper;
pub use taking::{Reason, Refusal, Taking};
