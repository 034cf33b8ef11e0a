//! How chaining ends.

ghost use Rattle.std.specs.Prelude.{◌≡◌};
ghost use Rattle.cdc_chain_command.specs.Endings.{status_of};

use cdc_chain::ChainStop;
use cdc_streams::{StreamEnding, failure_status};

/// How a command that chains a stream ended.
pub type ChainEnding = StreamEnding<ChainStop>;

/// The exit status: 0 at the end; 1 after a failure that may pass; 2 at a bad line, or if the state is another one than
/// was asked for; 3 at what contradicts the end.
pub fn chain_status(ending: ChainEnding) -> u8
    ensures { result ≡ status_of ending }
{
    match ending {
        StreamEnding::Stopped(ChainStop::AtEnd) => 0,
        StreamEnding::Failed(why) => failure_status(why),
        StreamEnding::Stopped(ChainStop::BadLine(..)) => 2,
        StreamEnding::Stopped(ChainStop::AfterEnd(..)) => 3,
    }
}
