//! What `chain` printed is a prefix of the lines of its queues, and each saved state is that of lines that were written
//! whole before. The command prints the lines of several queues of one stream, and saves the place of each queue.
#![tactic(auto)]

mod chain_log;
mod commands;
mod endings;
mod logs;
mod printing;
mod reading;
mod starts;
mod states;
mod stores;

pub use chain_log::ChainLog;
pub use commands::chain_command;
pub use endings::{ChainEnding, chain_status};
pub use logs::logs_can_be_cut;
pub use starts::start;
pub use states::{CHAIN_MARK, ChainSetup};
pub use stores::NoState;
