//! How checked following ends.

ghost use Rattle.std.specs.Prelude.{◌≡◌};
ghost use Rattle.cdc_checked_command.specs.Endings.{status_of};

use cdc_checked_follow::CheckStop;
use cdc_streams::{StreamEnding, failure_status};

/// How the command ended: following stopped at the end, at a gap, or at a bad line; or the command failed.
pub type CheckEnding = StreamEnding<CheckStop>;

/// The exit status of the program: 0 at the end; 1 after a failure that may pass; 2 at a bad line, or if the book is
/// another one than was asked for; 3 at a gap.
pub fn check_status(ending: CheckEnding) -> u8
    ensures { result ≡ status_of ending }
{
    match ending {
        StreamEnding::Stopped(CheckStop::AtEnd) => 0,
        StreamEnding::Stopped(CheckStop::Gap(..)) => 3,
        StreamEnding::Stopped(CheckStop::BadLine(..)) => 2,
        StreamEnding::Failed(why) => failure_status(why),
    }
}
