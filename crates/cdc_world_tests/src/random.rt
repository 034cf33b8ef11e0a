//! Random steps over a store of which one call fails, compared with the same steps over one that never fails.

use crate::played::{Seen, accounts, look_at, transfers, world_over};
use cdc_progress::MemoryStore;
use cdc_world::{Step, World};
use std::alloc::{AllocError, Global};
use std::test::Fail;

// The next number of a pseudorandom sequence, which is the same each time.
fn next_random(random: u64) -> u64 {
    random
        .wrapping_mul(6_364_136_223_846_793_005)
        .wrapping_add(1_442_695_040_888_963_407)
}

// The number of one of the last two that there are; 0, which is the number of none, if there are too few.
fn recent(count: usize, choice: u64) -> u64 {
    (count as u64).saturating_sub(choice % 2)
}

// A random step of most kinds. A packet or a confirm is a recent one.
fn random_step(alloc: Global, world: &World<MemoryStore>, random: u64) -> Result<Step, AllocError> {
    let choice = random / 65_536;
    Ok(match (random / 4_294_967_296) % 20 {
        0 => transfers(alloc, choice, &[1])?,
        1 | 2 | 3 => Step::Poll,
        4 | 5 | 6 => Step::Publish,
        7 | 8 | 9 => Step::Arrive(recent(world.packets(), choice)),
        10 | 11 => Step::Answer(recent(world.confirms(), choice)),
        12 | 13 => Step::Save,
        14 | 15 => Step::Start,
        16 => Step::Send(1),
        17 => Step::Take(1),
        18 => Step::Rewind(1),
        _ if choice % 4 == 0 => Step::Crash,
        _ => Step::Break(1),
    })
}

// How many random steps run in a world.
const STEPS: u64 = 300;

// Runs the same random steps in both worlds. A step that the store refuses is tried again in the second. Returns
// whether each step has the same result.
fn are_answered_alike(
    alloc: Global,
    sound: &mut World<MemoryStore>,
    faulty: &mut World<MemoryStore>,
    seed: u64,
) -> Result<bool, AllocError> {
    let mut random = seed;
    let mut alike = true;
    let first = [accounts(alloc)?];
    alike &= sound.play(alloc, &first) == faulty.play_past(alloc, &first, 1);
    for _ in 0..STEPS {
        random = next_random(random);
        let steps = [random_step(alloc, sound, random)?];
        alike &= sound.play(alloc, &steps) == faulty.play_past(alloc, &steps, 1);
    }
    Ok(alike)
}

// The same, without the number of the session: a start that is tried again may have skipped one.
fn without_session(seen: Option<Seen>) -> Option<Seen> {
    let seen = seen?;
    let timestamp = match seen.saved {
        Some((_, timestamp)) => timestamp,
        None => 0,
    };
    Some(Seen {
        saved: Some((0, timestamp)),
        ..seen
    })
}

// Whether both worlds have the same results, and are the same in the end.
fn go_alike(
    alloc: Global,
    sound: &mut World<MemoryStore>,
    faulty: &mut World<MemoryStore>,
    seed: u64,
) -> Result<bool, Fail> {
    let alike = are_answered_alike(alloc, sound, faulty, seed)?;
    Ok(alike && without_session(look_at(sound)) == without_session(look_at(faulty)))
}

// Whether a world whose store fails at this call does what `sound` does.
fn does_the_same(
    alloc: Global,
    sound: &mut World<MemoryStore>,
    fails_at: u8,
    keeps_new: bool,
) -> Result<bool, Fail> {
    let store = MemoryStore::with_faults(None, u64::from(fails_at), keeps_new);
    let mut faulty = world_over(alloc, store)?;
    go_alike(alloc, sound, &mut faulty, u64::from(fails_at))
}

// The same, compared with a world whose store never fails.
fn changes_nothing(alloc: Global, fails_at: u8, keeps_new: bool) -> Result<bool, Fail> {
    let mut sound = world_over(alloc, MemoryStore::new())?;
    does_the_same(alloc, &mut sound, fails_at, keeps_new)
}

#[test]
fn a_store_that_fails_once_changes_nothing_in_the_end(rt: HostRuntime) -> Result<(), Fail> {
    for fails_at in 1..=40u8 {
        for keeps_new in [false, true] {
            let same = changes_nothing(rt.alloc(), fails_at, keeps_new)?;
            assert!(rt; same, "{fails_at}");
        }
    }
    Ok(())
}
