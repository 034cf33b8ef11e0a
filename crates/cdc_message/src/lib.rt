//! What is read of a message's body is the event that the body was written of. Any other bytes are read as defined, or
//! refused. The crate has messages about the movements of the ledger: their JSON text, and the headers that route them.
#![tactic(auto)]

mod decimals;
mod decoding;
mod encoding;
pub mod errors;
pub mod fields;
mod headers;
mod items;
mod kinds;
mod laws;
mod message;
mod own_bodies;
mod packets;
mod part_numbers;
mod unordered_bodies;
mod words;

pub use decimals::{decimal_up_to, is_decimal};
pub use decoding::{decode, event_of, fast_event};
pub use encoding::encode;
pub use errors::DecodeError;
pub use fields::{Field, FieldName, Part};
pub use headers::{headers_of, properties_of};
pub use items::{Delivery, Item};
pub use kinds::{kind_named, kind_text};
pub use laws::replay_laws;
pub use message::Message;
pub use own_bodies::{Cursor, own_event};
pub use packets::{Answer, Confirm, Packet};
pub use unordered_bodies::documented_event;
