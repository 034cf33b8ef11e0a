//! Calls of a connector, a broker and a world that may run out of memory, each made again if it was refused.

ghost use Rattle.std.specs.Prelude.{◌≡◌, OnErr};

use crate::tries::{Tried, first, second};
use cdc_broker::Broker;
use cdc_match::Binding;
use cdc_progress::MemoryStore;
use cdc_publisher::Session;
use cdc_script::{StepFile, parse_steps};
use cdc_world::{Did, Step, World};
use std::alloc::{AllocError, Global};

/// How many events may wait for their confirms.
const WINDOW: usize = 64;

/// Makes a broker with these bindings, and with their copies if memory ran out.
pub fn made_broker(alloc: Global, bindings: Vec<Binding>, copies: Vec<Binding>) -> Tried<Broker>
    ensures { OnErr result.last (result.refused ≡ 2) }
{
    match Broker::new(alloc, bindings) {
        Ok(broker) => first(broker),
        Err(_) => second(Broker::new(alloc, copies)),
    }
}

/// Starts a session, again if it was refused.
pub fn started(alloc: Global, store: &mut MemoryStore) -> Tried<Session>
    ensures { OnErr result.last (result.refused ≡ 2) }
{
    match Session::start(alloc, store, WINDOW, None) {
        Ok(session) => first(session),
        Err(_) => second(Session::start(alloc, store, WINDOW, None).or(Err(AllocError))),
    }
}

/// Reads a step file, again if it was refused.
pub fn parsed_steps(alloc: Global, text: &[u8]) -> Tried<StepFile>
    ensures { OnErr result.last (result.refused ≡ 2) }
{
    match parse_steps(alloc, text) {
        Ok(steps) => first(steps),
        Err(_) => second(parse_steps(alloc, text).or(Err(AllocError))),
    }
}

/// Makes a world with these bindings, and with their copies if memory ran out.
pub fn made_world(
    alloc: Global,
    bindings: Vec<Binding>,
    copies: Vec<Binding>,
) -> Tried<World<MemoryStore>>
    ensures { OnErr result.last (result.refused ≡ 2) }
{
    match World::new(alloc, bindings, WINDOW, MemoryStore::new()) {
        Ok(world) => first(world),
        Err(_) => second(World::new(alloc, copies, WINDOW, MemoryStore::new())),
    }
}

/// Takes a step in a world, again if it was refused.
pub fn stepped(alloc: Global, world: &mut World<MemoryStore>, step: &Step) -> Tried<Did>
    ensures { OnErr result.last (result.refused ≡ 2) }
{
    match world.step(alloc, step) {
        Ok(did) => first(did),
        Err(_) => second(world.step(alloc, step).or(Err(AllocError))),
    }
}
