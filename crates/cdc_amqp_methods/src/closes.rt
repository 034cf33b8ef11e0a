//! Why a server closes a connection or a channel.

ghost use Rattle.cdc_amqp_frames.specs.Fields.{Finds};
ghost use Rattle.cdc_amqp_methods.specs.Closes as spec;

use cdc_amqp_frames::{short_at, u16_at};

/// Why a server closes a connection or a channel, for diagnostics.
#[derive(Clone, Copy, Debug)]
pub struct CloseReason<'a> {
    /// The reply code, such as 404 for a queue that doesn't exist.
    pub code: u16,
    /// The reply text.
    pub text: &'a [u8],
}

/// The reason in the payload of a frame with `connection.close` or `channel.close`. `None`: the payload is too short.
#[tactic(auto, unfolding(crate::specs::Closes::reason_at))]
pub fn close_reason(payload: &[u8]) -> Option<CloseReason<'_>>
    ensures { Finds spec.view result (spec.reason_at payload.now) }
{
    let (_, rest) = u16_at(payload)?;
    let (_, rest) = u16_at(rest)?;
    let (code, rest) = u16_at(rest)?;
    let (text, _) = short_at(rest)?;
    Some(CloseReason { code, text })
}
