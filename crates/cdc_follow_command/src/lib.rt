//! Each line `saved` is of a book that its store was given and held. The command `follow` follows a stream of messages,
//! keeps its book, and saves it.
#![tactic(auto)]

mod books;
mod endings;
mod followers;
mod forms;
mod json_lines;
mod quiet;

pub use books::{BookLog, ResumeError, begin, resume, resume_at};
pub use endings::{FollowEnding, follow_status};
pub use followers::{FollowSetup, Followed, StreamFollower, follow_command};
pub use forms::FollowForm;
