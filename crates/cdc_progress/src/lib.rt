//! An honest store loads what it holds, and any other store refuses each load. The crate has the progress record of a
//! connector, its text, and the stores that hold it across restarts.
#![tactic(auto)]

mod files;
mod memory;
mod progress;
mod stores;
mod texts;

pub use cdc_files::StoreError;
pub use files::FileStore;
pub use memory::MemoryStore;
pub use progress::Progress;
pub use stores::ProgressStore;
pub use texts::{parse, print};
