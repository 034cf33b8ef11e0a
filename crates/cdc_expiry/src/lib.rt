//! An index answers the first triple that is due, of all that were added and not removed: the expiry times of pending
//! transfers. A change in reserved memory can't fail.
#![tactic(auto)]

pub mod index;
pub mod triple;

pub use index::DueIndex;
pub use triple::Triple;
