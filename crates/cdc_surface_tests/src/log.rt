//! The public calls of the event log.

use crate::values::EVENT;
use cdc_log::EventLog;
use cdc_types::Event;
use std::alloc::AllocError;

#[test]
fn a_log_has_its_calls(rt: HostRuntime) {
    let mut log: EventLog = EventLog::new(rt.alloc());
    let reserved: Result<(), AllocError> = log.reserve(1);
    reserved.expect(&rt, "memory");
    let room: usize = log.room();
    assert!(rt; room >= 1);
    log.push(EVENT);
    let (last, len): (u64, usize) = (log.last_timestamp(), log.len());
    assert_eq!(rt; (last, len), (2000, 1));
    let first: Option<&Event> = log.get(0);
    assert_eq!(rt; first.copied(), Some(EVENT));
    let later: Result<Vec<Event>, AllocError> = log.read_after(rt.alloc(), 1999, 5);
    assert_eq!(rt; later.expect(&rt, "memory").len(), 1);
}
