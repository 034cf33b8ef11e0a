//! What steps report that they moved, in a course with each fault.

use crate::courses::FAULTY;
use crate::played::{accounts, transfers, world_over};
use cdc_progress::MemoryStore;
use cdc_world::{ItemName, Moved, PacketName, Step, World};
use std::alloc::Global;
use std::test::Fail;

/// What a step moved, in short: its kind and one of its numbers.
type Short = (&'static str, u64);

// The timestamp of the event in a packet, or the number of the session that connects.
fn number_of(packet: PacketName) -> u64 {
    match packet {
        PacketName::Connect { session } => session,
        PacketName::Publish { item, .. } => timestamp_of(item),
    }
}

// The timestamp of an event, or 0 for an end mark.
fn timestamp_of(item: ItemName) -> u64 {
    match item {
        ItemName::Event(timestamp) => timestamp,
        ItemName::EndMark => 0,
    }
}

fn short(moved: Option<Moved>) -> Short {
    let Some(moved) = moved else {
        return ("nothing", 0);
    };
    match moved {
        Moved::SessionStarted { session, .. } => ("started", session),
        Moved::SessionLost { session } => ("session lost", session),
        Moved::EventsOffered { first, .. } => ("offered", first.unwrap_or(0)),
        Moved::PacketSent { packet, .. } => ("sent", number_of(packet)),
        Moved::PacketTaken { packet } => ("taken", number_of(packet)),
        Moved::PacketIgnored { connection, .. } => ("ignored", connection),
        Moved::ConfirmReceived { session, .. } => ("confirm", session),
        Moved::ProgressSaved { timestamp, .. } => ("saved", timestamp),
        Moved::DeliverySent { position, .. } => ("delivery sent", position),
        Moved::QueueRewound { acked } => ("rewound", acked),
        Moved::FlightLost { count, .. } => ("flight lost", count as u64),
        Moved::DeliveryTaken { item, .. } => ("delivery taken", timestamp_of(item)),
        Moved::Acknowledged { acked } => ("acknowledged", acked),
    }
}

// What each of these steps moves, after two accounts and two transfers.
fn moves(
    alloc: Global,
    world: &mut World<MemoryStore>,
    steps: &[Step],
) -> Result<Vec<Short>, Fail> {
    let mut all = Vec::new(alloc);
    let (_, moved) = world.step_moved(alloc, &accounts(alloc)?)?;
    all.push(short(moved))?;
    let _ = world.step(alloc, &transfers(alloc, 1, &[5, 7])?)?;
    for step in steps {
        let (_, moved) = world.step_moved(alloc, step)?;
        all.push(short(moved))?;
    }
    Ok(all)
}

// The first is a batch. The others are those of the course with faults, up to the one that is refused.
const MOVED: [Short; 28] = [
    ("nothing", 0),
    ("started", 1),
    ("sent", 1),
    ("taken", 1),
    ("offered", 2000),
    ("sent", 2000),
    ("taken", 2000),
    ("session lost", 1),
    ("started", 2),
    ("sent", 2),
    ("taken", 2),
    ("ignored", 2),
    ("confirm", 1),
    ("offered", 2000),
    ("sent", 2000),
    ("taken", 2000),
    ("confirm", 2),
    ("saved", 2000),
    ("delivery sent", 1),
    ("rewound", 0),
    ("delivery sent", 1),
    ("delivery taken", 2000),
    ("acknowledged", 1),
    ("flight lost", 1),
    ("acknowledged", 1),
    ("delivery sent", 2),
    ("nothing", 0),
    ("delivery taken", 2000),
];

#[test]
fn a_course_with_faults_reports_what_it_moved(rt: HostRuntime) -> Result<(), Fail> {
    let alloc = rt.alloc();
    let mut world = world_over(alloc, MemoryStore::new())?;
    let moved = moves(alloc, &mut world, &FAULTY[..27])?;
    assert_eq!(rt; moved.as_slice(), MOVED.as_slice());
    Ok(())
}
