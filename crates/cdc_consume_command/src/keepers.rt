//! A follower of a stream with its store, as consuming a queue needs it.

ghost use Rattle.std.specs.Prelude.{◌≡◌, [], None};
ghost use Rattle.cdc_follow.specs.Following.{stops_at as stops_following};
ghost use Rattle.cdc_follow.specs.Stops.{stop_by as why_it_stops};
ghost use Rattle.cdc_consume_command.specs.Kept.{follower_of, place_of, stop_for as stop_if};

use cdc_amqp_consumer::{Consumer, End};
use cdc_amqp_dialogue::Keeper;
use cdc_amqp_methods::close_reason;
use cdc_files::StoreError;
use cdc_follow::{Counts, Entry, Follower, Following, LineError, Stop};
use cdc_follow_command::{FollowSetup, StreamFollower};
use cdc_streams::{Keeps, Saved};
use std::alloc::{AllocError, Global};

/// A follower, and the store that keeps it.
#[derive(Drop)]
pub struct KeptFollower<K> {
    followed: StreamFollower,
    store: K,
    /// How many deliveries were parked. The count saturates at 2^64-1.
    parked: u64,
    /// The text with which the server closed the connection or the channel.
    close_text: Vec<u8>,
}

impl<K> KeptFollower<K> {
    /// This follower, and its store. Nothing is parked yet, and the server hasn't closed.
    pub fn new(alloc: Global, followed: StreamFollower, store: K) -> KeptFollower<K>
        ensures followed { result.followed ≡ followed }
        ensures store { result.store ≡ store }
        ensures parked { result.parked ≡ 0 }
        ensures close_text { result.close_text.items ≡ [] }
    {
        KeptFollower {
            followed,
            store,
            parked: 0,
            close_text: Vec::new(alloc),
        }
    }

    /// The follower, with its book.
    pub fn follower(&self) -> &Follower
        ensures { result.now ≡ follower_of self.now }
    {
        self.followed.follower()
    }

    /// Whether the follower has taken the end-of-stream marker.
    pub(crate) fn is_ended(&self) -> bool
        ensures { result ≡ (follower_of self.now).kept.ended }
    {
        self.followed.follower().subscriber().ended()
    }

    /// How many deliveries came to what.
    pub fn counts(&self) -> Counts
        ensures { result ≡ self.now.followed.counts }
    {
        self.followed.counts()
    }

    /// How many deliveries were parked. The count saturates at 2^64-1.
    pub fn parked(&self) -> u64
        ensures { result ≡ self.now.parked }
    {
        self.parked
    }

    /// The text with which the server closed the connection or the channel; nothing if it didn't.
    pub fn close_text(&self) -> &[u8]
        ensures { result.now ≡ self.now.close_text.items }
    {
        self.close_text.as_slice()
    }

    /// Keeps no changes any longer, so that the next save is of the whole.
    pub(crate) fn forget_changes(&mut self)
        ensures followed { place_of self.new ≡ place_of self.old }
        ensures store { self.new.store ≡ self.old.store }
        ensures untracked { self.new.followed.tracked.changes ≡ None }
    {
        self.followed.forget_changes();
    }
}

// Whether following stops at an entry of which this became.
fn stops_at(following: Following, skips: bool) -> bool
    ensures { result ≡ stops_following skips following }
{
    match following {
        Following::Gap => !skips,
        Following::AfterEnd | Following::OutOfRange => true,
        Following::Applied | Following::PassedBy | Following::Duplicate | Following::Ended => false,
    }
}

// Why following stops at the entry of the delivery with this tag, of which this became.
fn stop_by(following: Following, tag: u64, entry: Entry) -> Stop
    ensures { result ≡ why_it_stops following (record { line = tag; entry = entry }) }
{
    match following {
        Following::AfterEnd => Stop::AfterEnd(tag, entry),
        Following::OutOfRange => Stop::BadLine(tag, LineError::TimestampOutOfRange),
        _ => Stop::Gap(tag, entry),
    }
}

// The same, if following stops at it.
fn stop_for(following: Following, skips: bool, tag: u64, entry: Entry) -> Option<Stop>
    ensures { result ≡ stop_if skips tag entry following }
{
    if stops_at(following, skips) {
        Some(stop_by(following, tag, entry))
    } else {
        None
    }
}

impl<K: Keeps<StreamFollower>> Keeper for KeptFollower<K> {
    ghost use Rattle.std.specs.Prelude.{◌≡◌};
    ghost use Rattle.cdc_consume_command.specs.Kept.{HasKeptFollowers, place_of, rules_of};
    ghost use Rattle.cdc_follow_command.specs.declared.followers.Followed.{Followed};

    type Setup = FollowSetup;

    type Stop = Stop;

    ghost State = { Followed };

    ghost rules = { rules_of };

    ghost stands = { λ _ it place. place_of it ≡ place };

    ghost has_kept = { λ setup. HasKeptFollowers (K.has_kept setup) };

    ghost fits = { λ setup it. K.fits setup it.store it.followed };

    fn is_chained(setup: &FollowSetup) -> bool {
        setup.rules.chained
    }

    fn has_ended(&self) -> bool {
        self.is_ended()
    }

    #[tactic(auto, using(crate::proofs::KeeperLemmas::after_by))]
    fn take(
        &mut self,
        setup: &FollowSetup,
        consumer: &Consumer,
        entry: &Entry,
    ) -> Result<Option<Stop>, AllocError> {
        let following = self.followed.take_entry(setup, entry)?;
        Ok(stop_for(following, setup.rules.skips_gaps, consumer.tag(), *entry))
    }

    fn note_parked(&mut self, _consumer: &Consumer, _error: LineError) {
        self.parked = self.parked.saturating_add(1);
    }

    fn note_end(&mut self, end: End, payload: &[u8]) {
        if let End::Closed(_) | End::ChannelClosed(_) = end {
            if let Some(reason) = close_reason(payload) {
                let _ = self.close_text.extend_from_slice(reason.text);
            }
        }
    }

    fn save(&mut self, setup: &FollowSetup, alloc: Global) -> Result<(), StoreError> {
        self.store.keep(setup, alloc, &self.followed)?;
        self.followed.begin_changes(alloc);
        Ok(())
    }

    ghost has_kept_none = { λ setup it. K.has_kept_none setup it.store };
}
