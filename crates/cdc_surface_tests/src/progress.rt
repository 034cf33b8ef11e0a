//! The public calls for saved progress.

use cdc_progress::{FileStore, MemoryStore, Progress, ProgressStore, StoreError, parse, print};
use std::alloc::AllocError;

const ERRORS: [StoreError; 4] = [
    StoreError::ReadFault,
    StoreError::WriteFault,
    StoreError::BadRecord,
    StoreError::OutOfMemory,
];

fn error(error: StoreError) -> (u8, &'static str) {
    match error {
        StoreError::ReadFault => (1, "read_fault"),
        StoreError::WriteFault => (2, "write_fault"),
        StoreError::BadRecord => (3, "bad_record"),
        StoreError::OutOfMemory => (4, "out_of_memory"),
    }
}

#[test]
fn errors_of_stores_have_numbers_and_names(rt: HostRuntime) {
    for fault in ERRORS {
        let number: u8 = fault.number();
        let name: &'static str = fault.name();
        assert_eq!(rt; (number, name), error(fault));
    }
}

#[test]
fn progress_is_printed_and_parsed(rt: HostRuntime) {
    let progress: Progress = Progress::new(3, 2000, 0);
    let numbers: (u64, u64, u64) = (progress.session(), progress.timestamp(), progress.start());
    assert_eq!(rt; numbers, (3, 2000, 0));
    let text: Result<String, AllocError> = print(rt.alloc(), progress);
    let text = text.expect(&rt, "memory");
    let parsed: Option<Progress> = parse(text.as_bytes());
    assert_eq!(rt; parsed, Some(progress));
}

// What each call of a store answers.
fn answers<S: ProgressStore>(
    store: &mut S,
) -> (
    Result<(), StoreError>,
    Result<Option<Progress>, StoreError>,
    u64,
) {
    let saved: Result<(), StoreError> = store.save(Progress::new(3, 2000, 0));
    let loaded: Result<Option<Progress>, StoreError> = store.load();
    let failures: u64 = store.failures();
    (saved, loaded, failures)
}

#[test]
fn a_store_in_memory_has_its_calls(rt: HostRuntime) {
    let mut store: MemoryStore = MemoryStore::new();
    let progress = Progress::new(3, 2000, 0);
    assert_eq!(rt; answers(&mut store), (Ok(()), Ok(Some(progress)), 0));
    let mut store: MemoryStore = MemoryStore::with_faults(Some(progress), 1, false);
    assert_eq!(rt;
        answers(&mut store),
        (Err(StoreError::WriteFault), Ok(Some(progress)), 1)
    );
}

#[test]
fn a_store_in_a_file_has_its_calls(rt: HostRuntime) {
    let mut store: FileStore<'_, HostRuntime> = FileStore::at(&rt, "/dev/null/no-such-file");
    let (saved, loaded, failures) = answers(&mut store);
    assert!(rt; saved.is_err() && loaded.is_err() && failures == 2);
}
