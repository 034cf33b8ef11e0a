//! The public calls of the index of timeouts.

use cdc_expiry::{DueIndex, Triple};
use std::alloc::AllocError;

const TRIPLE: Triple = Triple {
    expires_at: 10,
    timestamp: 1,
    slot: 0,
};

#[test]
fn an_index_has_its_calls(rt: HostRuntime) {
    let mut index: DueIndex = DueIndex::new(rt.alloc());
    let reserved: Result<(), AllocError> = index.reserve(1);
    reserved.expect(&rt, "memory");
    let room: usize = index.room();
    assert!(rt; room >= 1);
    index.add(TRIPLE);
    let len: usize = index.len();
    let count: usize = index.due_count(15);
    assert_eq!(rt; (len, count), (1, 1));
    let due: Option<Triple> = index.due(15);
    assert_eq!(rt; due, Some(TRIPLE));
    let is_removed: bool = index.remove(10, 1);
    assert!(rt; is_removed);
    assert_eq!(rt; (index.due(15), index.len()), (None, 0));
}
