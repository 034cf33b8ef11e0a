//! Frames that are read ahead are those that the reader gives, in order. A thread reads ahead, so that it is known
//! whether a whole frame can be had without waiting.
//!
//! It is for readers that may have to wait, such as a socket: a follower is saved, and its deliveries acknowledged, when
//! no whole frame is waiting. Blocks come as `cdc_read_ahead` sends them.
#![tactic(auto)]

mod held;
mod readers;

pub use readers::FramesAhead;
