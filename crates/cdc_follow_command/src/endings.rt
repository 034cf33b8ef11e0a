//! How following ends.

ghost use Rattle.std.specs.Prelude.{◌≡◌};
ghost use Rattle.cdc_follow_command.specs.Endings.{status_of};

use cdc_follow::Stop;
use cdc_streams::{StreamEnding, failure_status};

/// How the command ended: following stopped at the end, at a gap, at what contradicts the end, or at a bad line; or the
/// command failed.
pub type FollowEnding = StreamEnding<Stop>;

/// The exit status of the program: 0 at the end; 1 after a failure that may pass; 2 at a bad line, or if the book is
/// another one than was asked for; 3 at a gap, or at what contradicts the end.
pub fn follow_status(ending: FollowEnding) -> u8
    ensures { result ≡ status_of ending }
{
    match ending {
        StreamEnding::Stopped(Stop::AtEnd) => 0,
        StreamEnding::Failed(why) => failure_status(why),
        StreamEnding::Stopped(Stop::BadLine(..)) => 2,
        StreamEnding::Stopped(Stop::Gap(..)) | StreamEnding::Stopped(Stop::AfterEnd(..)) => 3,
    }
}
