//! What a file had stays readable until all of the new text is written and synced: files are opened and locked, written
//! beside, synced, and put in place. No contract knows a file's bytes, so only tests show this.
#![tactic(auto)]

pub mod errors;
mod replacing;

pub use errors::StoreError;
pub use replacing::{
    Leftover, Replaced, fill, holds, names, open_locked, open_plain, path_of_new, replace,
    target_of,
};
