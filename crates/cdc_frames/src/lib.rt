//! A sequence of frames that is cut off anywhere is read back as the frames that were whole. Frames are texts that are
//! appended to one another, each between two lines with its number and its size.
#![tactic(auto)]

pub mod frames;
pub mod laws;

pub use frames::{WholeFrame, read_frame, write_frame};
pub use laws::Content;
