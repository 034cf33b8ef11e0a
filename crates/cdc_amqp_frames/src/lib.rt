//! A frame that is written is read back, and a fault, or the end, is just that of the bytes. The crate has the fields
//! and frames of AMQP 0-9-1.
#![tactic(auto)]

mod errors;
mod fields;
mod frames;
pub mod laws;
mod reading;

pub use errors::{FrameFault, ReadFrameError};
pub use fields::{bytes_at, long_at, short_at, u8_at, u16_at, u32_at, u64_at};
pub use frames::{FRAME_END, FRAME_OVERHEAD, Frame, FrameKind, FrameRef, first_frame, push_frame};
pub use reading::read_frame;
