//! A follower that keeps what it has applied since a save.

ghost use Rattle.std.specs.Prelude.{◌≡◌, ◌++◌, [], false, true, None, Some, if◌then◌else◌};
ghost use Rattle.std.specs.Option.{option_map};
ghost use Rattle.cdc_book_log.specs.Details.{items_of};
ghost use Rattle.cdc_sql.specs.Places.{place_of};
ghost use Rattle.cdc_sql.specs.Rows.{HasRoom, rows_after};
ghost use Rattle.cdc_sql.specs.Saves.{events_in};

use cdc_follow::{Content, Entry, Follower, Following, TakesEntries};
use cdc_keys::HashKey;
use cdc_match::Binding;
use cdc_sql::{Place, Recent};
use std::alloc::{AllocError, Global};
use std::marker::Model;

/// A follower that keeps what it has applied since it was at some place.
#[derive(Drop)]
pub struct Recorded {
    follower: Follower,
    /// Where it was then.
    base: Place,
    /// It was saved then.
    is_saved: bool,
    /// What it has applied since.
    recent: Recent,
}

impl Model for Recorded {
    ghost use Rattle.std.specs.Option.{option_map};
    ghost use Rattle.cdc_sql_book.specs.Recording.{RecordedState};

    ghost Value = { RecordedState };

    ghost view = { λ it. record {
      follower = it.follower;
      base = it.base;
      is_saved = it.is_saved;
      rows = it.recent.rows.entries;
      events = option_map (λ kept. kept.items) it.recent.events;
    } };
}

impl Recorded {
    /// This follower, which has applied nothing since. Numbers of accounts are hashed with this key. The events that it
    /// applies are kept only if they are to be.
    pub fn new(alloc: Global, key: HashKey, follower: Follower, keeps_events: bool) -> Recorded
        ensures { result ≡ record {
          follower = follower;
          base = place_of follower;
          is_saved = false;
          rows = [];
          events = if keeps_events then Some [] else None;
        } }
    {
        Recorded {
            base: Place::of(&follower),
            follower,
            is_saved: false,
            recent: Recent::new(alloc, key, keeps_events),
        }
    }

    /// The follower.
    pub fn follower(&self) -> &Follower
        ensures { result.now ≡ self.now.follower }
    {
        &self.follower
    }

    /// Where it was when it began to keep what it applies.
    pub fn base(&self) -> Place
        ensures { result ≡ self.now.base }
    {
        self.base
    }

    /// Whether it was saved then.
    pub fn is_saved(&self) -> bool
        ensures { result ≡ self.now.is_saved }
    {
        self.is_saved
    }

    /// What it has applied since.
    pub fn recent(&self) -> &Recent
        ensures rows { result.now.rows.entries ≡ self.now.rows }
        ensures events { option_map (λ kept. kept.items) result.now.events ≡ self.now.events }
    {
        &self.recent
    }

    /// Begins to keep what it applies from now on. `is_saved`: it is saved now.
    pub fn begin(&mut self, is_saved: bool)
        ensures { self.new ≡ record {
          follower = self.old.follower;
          base = place_of self.old.follower;
          is_saved = is_saved;
          rows = [];
          events = option_map (λ _. []) self.old.events;
        } }
    {
        self.base = Place::of(&self.follower);
        self.is_saved = is_saved;
        self.recent.clear();
    }
}

/// Keeps an entry, of which this became, if it is an event that was applied.
fn record_entry(recent: &mut Recent, following: Following, entry: &Entry)
    requires { HasRoom recent.old }
    ensures rows { recent.new.rows.entries
        ≡ rows_after recent.old.rows.entries (events_in (items_of following entry.now.content)) }
    ensures events { option_map (λ kept. kept.items) recent.new.events
        ≡ option_map (λ kept. kept.items ++ events_in (items_of following entry.now.content)) recent.old.events }
{
    if let (Following::Applied, Content::Event(event)) = (following, &entry.content) {
        recent.record(event);
    }
}

impl TakesEntries for Recorded {
    ghost use Rattle.cdc_sql_book.specs.Recording.{RecordsOn};
    ghost use Rattle.cdc_sql_book.specs.Private.Recorded.{stays_so};

    ghost state = { λ it. it.follower };

    ghost moves = { RecordsOn };

    fn take_entry(&mut self, binding: &Binding, entry: &Entry) -> Result<Following, AllocError> {
        self.recent.make_room()?;
        let following = self.follower.take(binding, entry)?;
        record_entry(&mut self.recent, following, entry);
        Ok(following)
    }

    ghost stays = { stays_so };
}
