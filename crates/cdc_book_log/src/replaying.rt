//! A follower that is made of a base and of the records after it.

ghost use Rattle.std.specs.Prelude.{◌≡◌, IfOk, OnOk};
ghost use Rattle.cdc_book_log.specs.Replay.{with_changes};

use crate::accounts::{book_of, put_accounts};
use crate::places::Place;
use cdc_follow::Follower;
use cdc_keys::{HashKey, KeyedMap};
use cdc_types::Balances;
use indexmap::IndexMap;
use std::alloc::{AllocError, Global};
use std::marker::Model;

/// A follower, into whose book the accounts of records can be put. Contracts see the follower.
#[derive(Drop)]
pub(crate) struct Replaying {
    accounts: KeyedMap<u128, Balances>,
    place: Place,
}

impl Model for Replaying {
    ghost use Rattle.cdc_follow.specs.Following.{FollowState};
    ghost use Rattle.cdc_subscriber.specs.Book.{entries_of};
    ghost use Rattle.cdc_book_log.specs.Places.{state_at};

    ghost Value = { FollowState };

    ghost view = { λ r. state_at (entries_of r.accounts.entries) r.place };
}

impl Replaying {
    /// Begins with the follower of a base. Its book hashes ids with this key.
    pub(crate) fn new(alloc: Global, key: HashKey, base: &Follower) -> Result<Replaying, AllocError>
        ensures { IfOk result (λ replaying. replaying ≡ base.now) }
    {
        let mut accounts = IndexMap::with_hasher(alloc, key);
        let subscriber = base.subscriber();
        let book = subscriber.book();
        // (by its contract no account occurs twice)
        let _count = book.len();
        put_accounts(&mut accounts, book)?;
        let place = Place::of(base);
        Ok(Replaying { accounts, place })
    }

    /// Takes the changes of a record. After an error, a part of them may have been taken.
    pub(crate) fn take(&mut self, change: &Follower) -> Result<(), AllocError>
        ensures { OnOk result (self.new ≡ with_changes self.old change.now) }
    {
        let subscriber = change.subscriber();
        let book = subscriber.book();
        put_accounts(&mut self.accounts, book)?;
        self.place = Place::of(change);
        Ok(())
    }

    /// The follower.
    pub(crate) fn follower(&self, alloc: Global) -> Result<Follower, AllocError>
        ensures { IfOk result (λ follower. follower ≡ self.now) }
    {
        let book = book_of(alloc, &self.accounts)?;
        Ok(self.place.follower(book))
    }
}
