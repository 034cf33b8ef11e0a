//! A world that runs a course, and what is seen of it in numbers. A function that holds a world is proved to let go
//! of it at each of its exits, which takes most of the time. So only one function holds it, and the tests compare.

use cdc_match::Binding;
use cdc_progress::{MemoryStore, StoreError};
use cdc_types::{Batch, Items, NewAccount, NewTransfer};
use cdc_world::{Played, Step, World};
use std::alloc::{AllocError, Global};
use std::test::Fail;

/// An account of ledger 700.
fn account(id: u128) -> NewAccount {
    NewAccount {
        id,
        user_data_128: 0,
        user_data_64: 0,
        user_data_32: 0,
        ledger: 700,
        code: 10,
        flags: 0,
    }
}

/// A transfer from account 1 to account 2.
fn transfer(id: u128, amount: u128) -> NewTransfer {
    NewTransfer {
        id,
        debit_account_id: 1,
        credit_account_id: 2,
        amount,
        pending_id: 0,
        user_data_128: 0,
        user_data_64: 0,
        user_data_32: 0,
        timeout: 0,
        ledger: 700,
        code: 1,
        flags: 0,
    }
}

/// The step that opens accounts 1 and 2 at timestamp 1000.
pub fn accounts(alloc: Global) -> Result<Step, AllocError> {
    Ok(Step::Submit(Batch::Accounts {
        now: 1000,
        items: Items::from_vec(Vec::from_slice(alloc, &[account(1), account(2)])?),
    }))
}

/// The step that makes transfers of these amounts at timestamp 2000, with ids from `first` on.
pub fn transfers(alloc: Global, first: u64, amounts: &[u128]) -> Result<Step, AllocError> {
    let mut items = Vec::new(alloc);
    for (id, amount) in (first..u64::MAX).zip(amounts) {
        items.push(transfer(u128::from(id), *amount))?;
    }
    Ok(Step::Submit(Batch::Transfers {
        now: 2000,
        items: Items::from_vec(items),
    }))
}

/// A world with one subscriber to all events and a window of 1, over this store.
pub fn world_over(alloc: Global, store: MemoryStore) -> Result<World<MemoryStore>, Fail> {
    let bindings = Vec::from_array(alloc, [Binding::parse(alloc, &["all"])?])?;
    Ok(World::new(alloc, bindings, 1, store)?)
}

/// What is seen of a world.
#[derive(Clone, Copy, Debug, PartialEq, Eq)]
pub struct Seen {
    /// The session and the timestamp that the store holds.
    pub saved: Option<(u64, u64)>,
    /// How many events the ledger has, and how many packets and confirms were ever sent.
    pub events: usize,
    pub packets: usize,
    pub confirms: usize,
    /// Of the subscriber: how many deliveries are on their way, how many positions it has acknowledged, how many
    /// events it has applied, the timestamp of the last, and whether it has received the end mark.
    pub flight: usize,
    pub acks: usize,
    pub applied: u64,
    pub last: u64,
    pub ended: bool,
}

/// The session and the timestamp that a world's store holds.
pub fn saved(world: &mut World<MemoryStore>) -> Result<Option<(u64, u64)>, StoreError> {
    let progress = world.progress()?;
    Ok(progress.map(|progress| (progress.session(), progress.timestamp())))
}

/// What is seen of a world. A store that fails once is read again. None if it fails twice, or if the world doesn't
/// have one subscriber.
pub fn look_at(world: &mut World<MemoryStore>) -> Option<Seen> {
    let saved = match saved(world) {
        Ok(saved) => saved,
        Err(_) => self::saved(world).ok()?,
    };
    if world.subscriber_count() != 1 {
        return None;
    }
    let subscriber = world.subscriber(1);
    Some(Seen {
        saved,
        events: world.ledger().log().len(),
        packets: world.packets(),
        confirms: world.confirms(),
        flight: world.flight(1),
        acks: world.acks(1),
        applied: subscriber.applied_count(),
        last: subscriber.last(),
        ended: subscriber.ended(),
    })
}

/// A course: the two accounts and transfers of these amounts, if there are any; then these steps, each of which is
/// tried so many times more.
#[derive(Clone, Copy)]
pub struct Course<'a> {
    pub amounts: &'a [u128],
    pub steps: &'a [Step],
    pub tries: usize,
}

// Takes the two accounts and transfers of these amounts.
fn begin(alloc: Global, world: &mut World<MemoryStore>, amounts: &[u128]) -> Result<(), Fail> {
    let _ = world.step(alloc, &accounts(alloc)?)?;
    let _ = world.step(alloc, &transfers(alloc, 1, amounts)?)?;
    Ok(())
}

// Runs a course in a world, and returns how far it came and what is seen then.
fn play(
    alloc: Global,
    world: &mut World<MemoryStore>,
    course: Course,
) -> Result<(Played, Option<Seen>), Fail> {
    if !course.amounts.is_empty() {
        begin(alloc, world, course.amounts)?;
    }
    let played = world.play_past(alloc, course.steps, course.tries);
    Ok((played, look_at(world)))
}

/// The same in a new world over this store.
pub fn outcome(
    alloc: Global,
    store: MemoryStore,
    course: Course,
) -> Result<(Played, Option<Seen>), Fail> {
    let mut world = world_over(alloc, store)?;
    play(alloc, &mut world, course)
}
