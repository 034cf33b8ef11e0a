//! What comes of each line of a stream that is checked.

ghost use Rattle.std.specs.Prelude.{◌≡◌};
ghost use Rattle.cdc_checked_follow.specs.Turns as spec;

use crate::follower::Checking;
use crate::streams::CheckStop;
use cdc_audit::Refusal;
use cdc_follow::{Content, Following, Taken};
use cdc_match::Binding;
use cdc_message::headers_of;

/// What comes of a line.
#[derive(Clone, Copy, Debug, PartialEq, Eq)]
pub enum CheckTurn {
    /// It was taken so, and the lines after it are to be followed too. An event that is skipped was refused for this
    /// reason.
    GoesOn(Taken, Option<Refusal>),
    /// Following stops at it.
    Stops(CheckStop),
}

/// What becomes of an entry that is applied: the book has the event, or the binding doesn't take it.
fn applied_as(binding: &Binding, content: &Content) -> Following
    ensures { result ≡ spec.applied_as binding.now content.now }
{
    match content {
        Content::Event(event) => {
            if binding.matches(&headers_of(event)) {
                Following::Applied
            } else {
                Following::PassedBy
            }
        }
        Content::End => Following::Ended,
    }
}

/// Why an entry of which this becomes is refused, if it is.
pub(crate) fn refusal_of(checking: Checking) -> Option<Refusal>
    ensures { result ≡ spec.refusal_of checking }
{
    match checking {
        Checking::Refused(why) => Some(why),
        _ => None,
    }
}

/// What becomes of an entry, as a follower's counts have it: a late event is a duplicate, a refused one a gap.
pub(crate) fn following_of(binding: &Binding, content: &Content, checking: Checking) -> Following
    ensures { result ≡ spec.following_of binding.now content.now checking }
{
    match checking {
        Checking::Applied => applied_as(binding, content),
        Checking::Late => Following::Duplicate,
        Checking::Refused(_) => Following::Gap,
        Checking::Ended => Following::Ended,
        Checking::OutOfRange => Following::OutOfRange,
    }
}
