//! A follower that keeps what changes of it, and what events show of its accounts.

ghost use Rattle.std.specs.Prelude.{◌≡◌, [], IfSome, IsSomeAnd, None, Some};
ghost use Rattle.std.specs.Option.{option_map};
ghost use Rattle.cdc_follow.specs.Following.{next_follow};
ghost use Rattle.cdc_book_log.specs.Tracking.{HasChanged, IsSince};

use crate::details::{Details, make_room, show_entry};
use crate::records::without_accounts;
use cdc_follow::{Entry, Follower, Following, TakesEntries};
use cdc_keys::{HashKey, KeyedMap};
use cdc_match::Binding;
use indexmap::IndexMap;
use std::alloc::{AllocError, Global};
use std::marker::Model;

/// A follower, what changed of it since it was saved, and what events have shown of its accounts since.
#[derive(Drop)]
pub struct Tracked {
    follower: Follower,
    /// What a follower without accounts, at the place of the save, has made of the entries since; `None` if it isn't
    /// kept, so the whole follower has to be saved.
    changes: Option<Follower>,
    /// What the events that were applied since the save have shown of their accounts; `None` if it isn't kept.
    shown: Option<KeyedMap<u128, Details>>,
}

impl Model for Tracked {
    ghost use Rattle.std.specs.Option.{option_map};
    ghost use Rattle.cdc_book_log.specs.Tracked.{TrackedState};

    ghost Value = { TrackedState };

    ghost view = { λ it. record {
      follower = it.follower;
      changes = it.changes;
      shown = option_map (λ known. known.entries) it.shown;
    } };
}

impl Tracked {
    /// This follower, of which neither changes are kept nor what events show of its accounts.
    pub fn new(follower: Follower) -> Tracked
        ensures { result ≡ record { follower = follower; changes = None; shown = None } }
    {
        Tracked {
            follower,
            changes: None,
            shown: None,
        }
    }

    /// The follower.
    pub fn follower(&self) -> &Follower
        ensures { result.now ≡ self.now.follower }
    {
        &self.follower
    }

    /// What changed of it, if that is kept: a follower at the same place that has only the accounts that changed.
    pub fn changes(&self) -> &Option<Follower>
        ensures { result.now ≡ self.now.changes }
    {
        &self.changes
    }

    /// What the events that were applied since the save have shown of their accounts, if that is kept. Of each account
    /// it is what the last of them shows; if both accounts of an event are the same, the credited side counts.
    pub fn shown(&self) -> &Option<KeyedMap<u128, Details>>
        ensures { option_map (λ known. known.entries) result.now ≡ self.now.shown }
    {
        &self.shown
    }

    /// Begins to keep what events show of its accounts, by the accounts' numbers, which are hashed with this key.
    pub fn keep_details(&mut self, alloc: Global, key: HashKey)
        ensures { self.new ≡ record self.old { shown = Some [] } }
    {
        self.shown = Some(IndexMap::with_hasher(alloc, key));
    }

    /// Begins to keep what changes from now on, and what events show from now on, if that is kept.
    pub fn begin_changes(&mut self, alloc: Global)
        ensures follower { self.new.follower ≡ self.old.follower }
        ensures shown { self.new.shown ≡ option_map (λ _. []) self.old.shown }
        ensures since { IsSince self.old.follower self.new }
    {
        self.changes = Some(without_accounts(alloc, &self.follower));
        clear_shown(&mut self.shown);
    }

    /// Keeps no changes any longer. What events have shown is kept still, since it isn't saved yet.
    pub fn forget_changes(&mut self)
        ensures { self.new ≡ record self.old { changes = None } }
    {
        self.changes = None;
    }
}

/// Drops what was shown.
fn clear_shown(shown: &mut Option<KeyedMap<u128, Details>>)
    ensures { option_map (λ known. known.entries) shown.new ≡ option_map (λ _. []) shown.old }
{
    if let Some(known) = shown {
        known.clear();
    }
}

/// Takes an entry into the changes, if they are kept. If memory runs out, they aren't kept any longer.
fn take_change(changes: &mut Option<Follower>, binding: &Binding, entry: &Entry)
    ensures { IfSome changes.new (λ new. IsSomeAnd changes.old (λ old.
        new ≡ next_follow binding.now old entry.now)) }
{
    let is_lost = match changes {
        Some(changes) => changes.take(binding, entry).is_err(),
        None => false,
    };
    if is_lost {
        *changes = None;
    }
}

impl TakesEntries for Tracked {
    ghost use Rattle.cdc_book_log.specs.Tracking.{GoesOn, stays_so};

    ghost state = { λ it. it.follower };

    ghost moves = { GoesOn };

    fn take_entry(&mut self, binding: &Binding, entry: &Entry) -> Result<Following, AllocError> {
        make_room(&mut self.shown)?;
        let following = self.follower.take(binding, entry)?;
        take_change(&mut self.changes, binding, entry);
        show_entry(&mut self.shown, following, entry);
        Ok(following)
    }

    ghost stays = { stays_so };
}
