//! What is printed after each save is the text of the saves so far, which make the follower's tables. Each save of a
//! follower's book is printed as a transaction of a database.
#![tactic(auto)]

mod books;
mod followers;
mod forms;
mod recorded;
mod writers;

pub use books::SqlBook;
pub use followers::{SqlFollower, sql_command};
pub use forms::SqlForm;
pub use recorded::Recorded;
pub use writers::SteadyWrite;
