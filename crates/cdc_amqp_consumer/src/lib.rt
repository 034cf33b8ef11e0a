//! A consumer makes of each frame what the definition of its machine makes of it. It takes frames of AMQP 0-9-1, and
//! returns what came of each and what to send.
#![tactic(auto)]

mod consumer;
mod errors;
mod replies;

pub use consumer::{Consumer, Done, End, MOST_KEPT, Outcome};
pub use errors::{ConsumeError, ConsumeFault};
pub use replies::{FRAME_MAX, Phase, Reply, Settings, reply_to};
