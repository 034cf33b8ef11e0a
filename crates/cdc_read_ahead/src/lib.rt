//! What is taken of a stream that is read ahead is what its reader gives, in order, and a line counts as ready only if
//! it was received whole. A thread of its own reads blocks and sends them over a link, so that what takes them knows
//! whether anything is ready.
//!
//! - It is for readers that may have to wait, such as a pipe. A regular file is read without it: its bytes are always
//!   there, and a thread that is slower than its consumer would look like a slow pipe.
//! - A block that isn't there at once may be on its way. So the answer that none is ready comes only after a few looks,
//!   between which other threads may run.
//! - At most `WAITING_BLOCKS` blocks of `BLOCK_BYTES` wait, and the thread waits while they do. The reader of lines
//!   holds at most one line and one block.
//! - A thread is joined once its last piece was received. One whose consumer stops before is left, since the read that
//!   it is in may never return. What it has read was acknowledged to nobody, so nothing depends on it.
#![tactic(auto)]

mod blocks;
mod errors;
mod held;
mod pieces;
mod readers;
mod working;

pub use blocks::Blocks;
pub use errors::StartFault;
pub use pieces::{BLOCK_BYTES, Ending, Known, Piece, Sent, Unknown, WAITING_BLOCKS};
pub use readers::{AheadReader, LINE_BYTES};
