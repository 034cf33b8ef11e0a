//! How an audit ends.

ghost use Rattle.std.specs.Prelude.{◌≡◌};
ghost use Rattle.cdc_audit_command.specs.Endings.{status_of};

use cdc_audit::AuditStop;
use cdc_streams::{StreamEnding, failure_status};

/// How the command ended: auditing stopped at the end, at an event that is refused, or at a bad line; or the command
/// failed.
pub type AuditEnding = StreamEnding<AuditStop>;

/// The exit status of the program: 0 at the end; 1 after a failure that may pass; 2 at a bad line, or if the state is
/// another one than was asked for; 3 at an event that is refused.
pub fn audit_status(ending: AuditEnding) -> u8
    ensures { result ≡ status_of ending }
{
    match ending {
        StreamEnding::Stopped(AuditStop::AtEnd) => 0,
        StreamEnding::Failed(why) => failure_status(why),
        StreamEnding::Stopped(AuditStop::BadLine(..)) => 2,
        StreamEnding::Stopped(AuditStop::Refused(..)) => 3,
    }
}
