//! The command `consume`.

ghost use Rattle.cdc_amqp_consumer.specs.Machine.{SettingsFit};
ghost use Rattle.cdc_consume_command.specs.Consuming.{Consumes};

use crate::endings::ConsumeEnding;
use crate::keepers::KeptFollower;
use cdc_amqp_consumer::Settings;
use cdc_amqp_dialogue::laws::acknowledged_is_saved;
use cdc_amqp_dialogue::{FrameReader, Pace, consume};
use cdc_follow_command::{FollowSetup, StreamFollower};
use cdc_streams::Keeps;
use std::alloc::Global;
use std::io::Write;

/// Consumes a queue until the connection ends. The book is saved after `pace.every` deliveries, each time that no whole
/// frame is waiting, and at the end; what is saved is acknowledged. The first save is of the whole book. After the
/// end-of-stream marker, after `pace.limit` deliveries, or at a delivery at which following stops, the connection is
/// closed. A message that carries no entry is rejected if `pace.parks`.
///
/// Whatever the server sends, and however this ends: the follower is the fold over the entries of the first deliveries,
/// in order, each once; and an acknowledgement is sent only of deliveries whose entries the book has that the store was
/// given.
pub fn consume_command<R: FrameReader, W: Write, K: Keeps<StreamFollower>>(
    alloc: Global,
    settings: &Settings<'_>,
    pace: Pace,
    setup: &FollowSetup,
    reader: &mut R,
    writer: &mut W,
    kept: &mut KeptFollower<K>,
) -> ConsumeEnding
    requires fit { SettingsFit settings.now }
    ensures { Consumes settings.now pace setup.now (K.has_kept setup.now) (R.has_answered reader.old)
        (R.remaining reader.old) (W.contents writer.old) (W.contents writer.new) kept.old kept.new result }
{
    acknowledged_is_saved::<KeptFollower<K>>();
    kept.forget_changes();
    let mut stop = None;
    let how = consume(
        alloc, settings, pace, setup, reader, writer, kept, &mut stop,
    );
    let ended = kept.is_ended();
    ConsumeEnding { how, stop, ended }
}
