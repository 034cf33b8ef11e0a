//! Tests that the allocations of an index succeed, also for many triples, and worked examples.

ghost use Rattle.std.specs.Prelude.{◌≡◌};

use cdc_expiry::{DueIndex, Triple};
use std::alloc::{AllocError, Global};
use std::test::Fail;

// The triple of the transfer at this place, with this expiry.
fn triple(expires_at: u64, place: usize) -> Triple
    ensures { result ≡ record { expires_at = expires_at; timestamp = place; slot = place } }
{
    Triple {
        expires_at,
        timestamp: place as u64,
        slot: place,
    }
}

// An index of transfers with these expiry timestamps, created one after another at the timestamps 0, 1, 2 and so on.
fn index_of(alloc: Global, ends: &[u64]) -> Result<DueIndex, AllocError> {
    let mut index = DueIndex::new(alloc);
    index.reserve(ends.len())?;
    for (place, expires_at) in ends.iter().enumerate() {
        index.add(triple(*expires_at, place));
    }
    Ok(index)
}

#[test]
fn the_first_to_end_is_due(rt: HostRuntime) -> Result<(), Fail> {
    let index = index_of(rt.alloc(), &[30, 10, 20, 10])?;
    assert_eq!(rt; (index.len(), index.is_empty()), (4, false));
    for (now, first, count) in [
        (9, None, 0),
        (10, Some(1), 2),
        (29, Some(1), 3),
        (30, Some(1), 4),
    ] {
        assert_eq!(rt;
            index.due(now),
            first.map(|place| triple(10, place)),
            "at {now}"
        );
        assert_eq!(rt; index.due_count(now), count, "at {now}");
    }
    Ok(())
}

#[test]
fn one_triple_is_taken_out(rt: HostRuntime) -> Result<(), Fail> {
    let mut index = index_of(rt.alloc(), &[10, 10, 20])?;
    for (expires_at, timestamp, found, left) in [
        (10, 0, true, 2),
        (10, 0, false, 2),
        (20, 1, false, 2),
        (20, 2, true, 1),
    ] {
        assert_eq!(rt; index.remove(expires_at, timestamp), found);
        assert_eq!(rt; index.len(), left);
    }
    assert_eq!(rt; index.due(10), Some(triple(10, 1)));
    Ok(())
}

#[test]
fn an_index_of_many(rt: HostRuntime) -> Result<(), Fail> {
    let ends = vec![in rt.alloc(); 77; 10_000]?;
    let index = index_of(rt.alloc(), &ends)?;
    assert_eq!(rt; (index.len(), index.due_count(77)), (10_000, 10_000));
    assert_eq!(rt; index.due(77), Some(triple(77, 0)));
    Ok(())
}
