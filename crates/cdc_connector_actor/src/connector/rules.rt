//! A connector's rules: its plan of restarts, and whether a message belongs to the current session and poll.

ghost use Rattle.std.specs.Prelude.{◌≡◌, ◌==◌, ◌&&◌, ◌↔◌, ◌+◌, IfSome, IsTrue, Some, not, unwrap_or};
ghost use Rattle.std.specs.List.{list_any};
ghost use Rattle.cdc_publisher.specs.Stands.{SessionStands};
ghost use Rattle.cdc_connector_actor.specs.Connector.Moves.{publish_count};
ghost use Rattle.cdc_publisher.specs.Courses.{Course};

use cdc_message::Packet;
use cdc_publisher::Session;
use cdc_traffic::Poll;

/// How many publish packets were sent, with this packet. None if the count overflows.
pub(crate) fn count_publish(published: u64, packet: &Packet) -> Option<u64>
    ensures { IfSome result (λ count. count ≡ published + publish_count packet.now) }
{
    match packet {
        Packet::Connect { .. } => Some(published),
        Packet::Publish { .. } => published.checked_add(1),
    }
}

/// Whether one more publish packet was sent, and the plan has a restart after it.
pub(crate) fn is_due(plan: &[u64], before: u64, published: u64) -> bool
    ensures { result
        ≡ (not (published == before) && list_any (λ number. number == published) plan.now) }
{
    published != before && plan.contains(&published)
}

/// The timestamp that the run's first session begins after: this session's, if there was none before it.
pub(crate) fn first_base(first: Option<u64>, session: &Session) -> u64
    ensures { (course : Course) → SessionStands (Some session.now) (Some course)
        → result ≡ unwrap_or first course.base }
{
    match first {
        Some(first) => first,
        None => session.base(),
    }
}

pub(crate) fn is_open(asked: Option<Poll>, poll: Poll) -> bool
    ensures { IsTrue result ↔ (asked ≡ Some poll) }
{
    match asked {
        Some(asked) => asked == poll,
        None => false,
    }
}

pub(crate) fn is_own(session: &Option<Session>, number: u64) -> bool
    ensures { (course : Course) → SessionStands session.now (Some course)
        → result ≡ (number == course.number) }
{
    match session {
        Some(session) => number == session.number(),
        None => false,
    }
}
