//! What the actors of a run share: their places and faults, what each works with, and how it sends and receives.
//! Contracts permit that a peer is gone for no reason; tests refuse that.
#![tactic(auto)]

pub mod faults;
pub mod peers;
pub mod places;
pub mod work;

pub use faults::RunFault;
pub use peers::{Nothing, receive_from, receive_ready_from, send_to};
pub use places::Place;
pub use work::{Noted, Numbered, Turns, Work};
