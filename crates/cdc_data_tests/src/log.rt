//! Tests that the allocations of a log succeed, and that it keeps what is pushed.

ghost use Rattle.std.specs.Prelude.{◌≡◌};

use cdc_log::EventLog;
use cdc_types::{Event, EventAccount, EventKind, EventTransfer};
use std::alloc::{AllocError, Global};
use std::test::Fail;

// An event with this timestamp, whose amounts are all 0.
fn event(timestamp: u64) -> Event
    ensures { result.timestamp ≡ timestamp }
{
    let account = EventAccount {
        id: 1,
        debits_pending: 0,
        debits_posted: 0,
        credits_pending: 0,
        credits_posted: 0,
        user_data_128: 0,
        user_data_64: 0,
        user_data_32: 0,
        code: 10,
        flags: 0,
        timestamp: 1000,
    };
    Event {
        timestamp,
        kind: EventKind::SinglePhase,
        ledger: 700,
        transfer: EventTransfer {
            id: 1,
            amount: 0,
            pending_id: 0,
            user_data_128: 0,
            user_data_64: 0,
            user_data_32: 0,
            timeout: 0,
            code: 1,
            flags: 0,
            timestamp,
        },
        debit_account: account,
        credit_account: account,
    }
}

#[test]
fn a_log_keeps_its_events_in_order(rt: HostRuntime) -> Result<(), Fail> {
    let mut log = EventLog::new(rt.alloc());
    assert!(rt; log.is_empty());
    assert_eq!(rt; (log.len(), log.last_timestamp()), (0, 0));
    for timestamp in [2000, 2001] {
        log.reserve(1)?;
        assert!(rt; log.room() > 0);
        assert!(rt; log.last_timestamp() < timestamp);
        log.push(event(timestamp));
    }
    assert!(rt; !log.is_empty());
    assert_eq!(rt; (log.len(), log.last_timestamp()), (2, 2001));
    for (place, found) in [(0, Some(event(2000))), (1, Some(event(2001))), (2, None)] {
        assert_eq!(rt; log.get(place).copied(), found);
    }
    Ok(())
}

// A log of `count` events, with the timestamps 1, 2, 3 and so on. The test of the last timestamp lets the check see
// that each is later than the last.
fn log_of(alloc: Global, count: u64) -> Result<EventLog, AllocError> {
    let mut log = EventLog::new(alloc);
    for place in 0..count {
        log.reserve(1)?;
        if log.last_timestamp() <= place {
            log.push(event(place + 1));
        }
    }
    Ok(log)
}

#[test]
fn events_are_read_after_a_timestamp(rt: HostRuntime) -> Result<(), Fail> {
    let log = log_of(rt.alloc(), 10_000)?;
    for (timestamp, limit, first, count) in [
        (0, 2, 1, 2),
        (0, 20_000, 1, 10_000),
        (7, 3, 8, 3),
        (9_998, 3, 9_999, 2),
        (10_000, 3, 0, 0),
        (5, 0, 0, 0),
    ] {
        let read = log.read_after(rt.alloc(), timestamp, limit)?;
        assert_eq!(rt; read.len(), count, "after {timestamp}");
        assert_eq!(rt;
            read.first().copied(),
            if count == 0 { None } else { Some(event(first)) }
        );
    }
    Ok(())
}
