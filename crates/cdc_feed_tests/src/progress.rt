use cdc_progress::{FileStore, Progress, ProgressStore, StoreError, parse, print};
use std::alloc::{AllocError, Global};
use std::fs::{File, OpenFile};
use std::test::Fail;
use std::{fs, process};

// Records, each given by a session, a timestamp and a start, and their texts.
const RECORDS: [(u64, u64, u64, &str); 6] = [
    (3, 2000, 0, "tb-cdc 2 3 2000 0\n"),
    (0, 0, 0, "tb-cdc 2 0 0 0\n"),
    (1, 10, 0, "tb-cdc 2 1 10 0\n"),
    (1, 2000, 2000, "tb-cdc 2 1 2000 2000\n"),
    (4, 2001, 2000, "tb-cdc 2 4 2001 2000\n"),
    (
        u64::MAX,
        Progress::MAX_TIMESTAMP,
        Progress::MAX_TIMESTAMP,
        "tb-cdc 2 18446744073709551615 9223372036854775807 9223372036854775807\n",
    ),
];

// Records, each given by a session and a timestamp, and their texts in the first version, which has no start.
const FIRST_RECORDS: [(u64, u64, &str); 3] = [
    (3, 2000, "tb-cdc 1 3 2000\n"),
    (0, 0, "tb-cdc 1 0 0\n"),
    (
        u64::MAX,
        Progress::MAX_TIMESTAMP,
        "tb-cdc 1 18446744073709551615 9223372036854775807\n",
    ),
];

// Bytes that aren't records.
const NO_RECORDS: [&str; 23] = [
    "",
    "\n",
    "tb-cdc 1 3 2000",
    "tb-cdc 1 03 2000\n",
    "tb-cdc 1 3 02000\n",
    "tb-cdc 1 3 9223372036854775808\n",
    "tb-cdc 1 18446744073709551616 2000\n",
    "tb-cdc 1 3 2000 0\n",
    "tb-cdc 3 3 2000 0\n",
    "tb-cdc 1 3 2000\n\n",
    "tb-cdc 1 3  2000\n",
    "tb-cdc 1 +3 2000\n",
    "tb-cdc 1 3 2000 \n",
    "tb-cdc 1 3\n",
    " tb-cdc 1 3 2000\n",
    "tb-cdc 2 3 2000\n",
    "tb-cdc 2 3 2000 0",
    "tb-cdc 2 3 2000 00\n",
    "tb-cdc 2 3 2000 2001\n",
    "tb-cdc 2 3 9223372036854775808 0\n",
    "tb-cdc 2 3 2000 \n",
    "tb-cdc 2 3 2000 0 \n",
    "tb-cdc 2 3 2000 0\n\n",
];

// The progress in a row of a table, whose numbers are put in order.
fn progress(session: u64, timestamp: u64, start: u64) -> Progress {
    let timestamp = timestamp.min(Progress::MAX_TIMESTAMP);
    Progress::new(session, timestamp, start.min(timestamp))
}

#[test]
fn records_are_printed_and_read_back(rt: HostRuntime) -> Result<(), Fail> {
    for (session, timestamp, start, text) in RECORDS {
        let progress = progress(session, timestamp, start);
        assert_eq!(rt; print(rt.alloc(), progress)?.as_str(), text);
        assert_eq!(rt; parse(text.as_bytes()), Some(progress));
    }
    Ok(())
}

#[test]
fn records_of_the_first_version_start_at_0(rt: HostRuntime) {
    for (session, timestamp, text) in FIRST_RECORDS {
        assert_eq!(rt;
            parse(text.as_bytes()),
            Some(progress(session, timestamp, 0))
        );
    }
}

// The folder for the files of tests, one for each process.
fn scratch(rt: &HostRuntime) -> Result<String, Fail> {
    let folder = format!(in rt.alloc(); "/tmp/cdc-progress-{}", process::id(rt.process()))?;
    fs::create_dir_all(rt, folder.as_str())?;
    Ok(folder)
}

#[test]
fn each_prefix_of_a_record_is_none(rt: HostRuntime) {
    for (_, _, _, text) in RECORDS {
        for end in 0..text.len() {
            assert_eq!(rt; parse(&text.as_bytes()[..end]), None);
        }
    }
}

// A save by a new store in the file at this path, and its answer.
fn save_at(rt: &HostRuntime, path: &str, progress: Progress) -> Result<(), StoreError> {
    FileStore::at(rt, path).save(progress)
}

fn load_at(rt: &HostRuntime, path: &str) -> Result<Option<Progress>, StoreError> {
    FileStore::at(rt, path).load()
}

// The text of a file.
fn text_at(rt: &HostRuntime, path: &str) -> Result<String, Fail> {
    Ok(fs::read_to_string(rt, path)?)
}

#[test]
fn a_file_gives_back_what_was_saved(rt: HostRuntime) -> Result<(), Fail> {
    let folder = scratch(&rt)?;
    let path = format!(in rt.alloc(); "{folder}/kept")?;
    assert_eq!(rt; load_at(&rt, path.as_str()), Ok(None));
    for (session, timestamp, start, text) in RECORDS {
        let progress = progress(session, timestamp, start);
        assert_eq!(rt; save_at(&rt, path.as_str(), progress), Ok(()));
        assert_eq!(rt; text_at(&rt, path.as_str())?.as_str(), text);
        assert_eq!(rt; load_at(&rt, path.as_str()), Ok(Some(progress)));
    }
    fs::remove_dir_all(&rt, folder.as_str())?;
    Ok(())
}

// The leftover of an interrupted save next to the store's file is replaced, and anything else is left alone.
#[test]
fn a_save_goes_by_way_of_a_new_file(rt: HostRuntime) -> Result<(), Fail> {
    let folder = scratch(&rt)?;
    let path = format!(in rt.alloc(); "{folder}/saved")?;
    let beside = format!(in rt.alloc(); "{folder}/saved.new")?;
    for left in ["", "tb", "tb-cdc 1 4", "tb-cdc 2 4 20"] {
        fs::write(&rt, beside.as_str(), left)?;
        assert_eq!(rt;
            save_at(&rt, path.as_str(), Progress::new(3, 2000, 0)),
            Ok(())
        );
        assert_eq!(rt;
            text_at(&rt, path.as_str())?.as_str(),
            "tb-cdc 2 3 2000 0\n"
        );
        assert!(rt; !fs::exists(&rt, beside.as_str())?);
    }
    let other = "subscriber all\n";
    fs::write(&rt, beside.as_str(), other)?;
    let answer = save_at(&rt, path.as_str(), Progress::new(4, 2000, 0));
    assert_eq!(rt; answer, Err(StoreError::WriteFault));
    assert_eq!(rt;
        text_at(&rt, path.as_str())?.as_str(),
        "tb-cdc 2 3 2000 0\n"
    );
    assert_eq!(rt; text_at(&rt, beside.as_str())?.as_str(), other);
    fs::remove_dir_all(&rt, folder.as_str())?;
    Ok(())
}

// While a store has a file locked, another one is refused; and a store that finds another record than its own
// replaces nothing, and still loads its own.
#[test]
fn a_store_goes_by_its_file(rt: HostRuntime) -> Result<(), Fail> {
    let folder = scratch(&rt)?;
    let path = format!(in rt.alloc(); "{folder}/shared")?;
    let first = Progress::new(1, 10, 0);
    let second = Progress::new(2, 20, 10);
    let mut store = FileStore::at(&rt, path.as_str());
    assert_eq!(rt; store.save(first), Ok(()));
    assert_eq!(rt; load_at(&rt, path.as_str()), Err(StoreError::ReadFault));
    let answer = save_at(&rt, path.as_str(), second);
    assert_eq!(rt; answer, Err(StoreError::WriteFault));
    assert_eq!(rt; store.load(), Ok(Some(first)));
    fs::write(&rt, path.as_str(), "tb-cdc 2 2 20 10\n")?;
    assert_eq!(rt; store.save(first), Err(StoreError::WriteFault));
    assert_eq!(rt; store.load(), Ok(Some(first)));
    assert_eq!(rt; text_at(&rt, path.as_str())?.as_str(), "tb-cdc 2 2 20 10\n");
    fs::remove_file(&rt, path.as_str())?;
    assert_eq!(rt; store.save(second), Ok(()));
    assert_eq!(rt; text_at(&rt, path.as_str())?.as_str(), "tb-cdc 2 2 20 10\n");
    fs::remove_dir_all(&rt, folder.as_str())?;
    Ok(())
}

// A store keeps the file that it has loaded locked until its next call. After a call that failed it keeps nothing
// locked.
#[test]
fn a_loaded_file_stays_locked(rt: HostRuntime) -> Result<(), Fail> {
    let folder = scratch(&rt)?;
    let path = format!(in rt.alloc(); "{folder}/loaded")?;
    let first = Progress::new(1, 10, 0);
    let second = Progress::new(2, 20, 10);
    fs::write(&rt, path.as_str(), "tb-cdc 2 1 10 0\n")?;
    let mut store = FileStore::at(&rt, path.as_str());
    assert_eq!(rt; store.load(), Ok(Some(first)));
    assert_eq!(rt; load_at(&rt, path.as_str()), Err(StoreError::ReadFault));
    let answer = save_at(&rt, path.as_str(), second);
    assert_eq!(rt; answer, Err(StoreError::WriteFault));
    assert_eq!(rt; text_at(&rt, path.as_str())?.as_str(), "tb-cdc 2 1 10 0\n");
    fs::write(&rt, path.as_str(), "no record\n")?;
    assert_eq!(rt; store.save(second), Err(StoreError::WriteFault));
    fs::write(&rt, path.as_str(), "tb-cdc 2 2 20 10\n")?;
    assert_eq!(rt; load_at(&rt, path.as_str()), Ok(Some(second)));
    fs::remove_dir_all(&rt, folder.as_str())?;
    Ok(())
}

// A store loads what it read when it was made, whatever has become of the file, and replaces nothing else.
#[test]
fn a_store_keeps_what_it_read(rt: HostRuntime) -> Result<(), Fail> {
    let folder = scratch(&rt)?;
    let path = format!(in rt.alloc(); "{folder}/read")?;
    let first = Progress::new(1, 10, 0);
    let second = Progress::new(2, 20, 10);
    for text in ["tb-cdc 2 2 20 10\n", "subscriber all\n", ""] {
        fs::write(&rt, path.as_str(), "tb-cdc 2 1 10 0\n")?;
        let mut store = FileStore::at(&rt, path.as_str());
        fs::write(&rt, path.as_str(), text)?;
        assert_eq!(rt; store.load(), Ok(Some(first)), "{text}");
        let answer = store.save(second);
        assert_eq!(rt; answer, Err(StoreError::WriteFault), "{text}");
        assert_eq!(rt; text_at(&rt, path.as_str())?.as_str(), text);
        assert_eq!(rt; store.load(), Ok(Some(first)), "{text}");
        fs::remove_file(&rt, path.as_str())?;
        assert_eq!(rt; store.load(), Ok(Some(first)), "{text}");
        assert_eq!(rt; store.save(second), Ok(()));
        assert_eq!(rt; store.load(), Ok(Some(second)));
    }
    fs::remove_dir_all(&rt, folder.as_str())?;
    Ok(())
}

// A store that couldn't read its file as a record refuses each load, whatever the file holds later. It saves once
// nothing else is in the way.
#[test]
fn what_was_no_record_is_never_loaded(rt: HostRuntime) -> Result<(), Fail> {
    let folder = scratch(&rt)?;
    let path = format!(in rt.alloc(); "{folder}/unread")?;
    fs::write(&rt, path.as_str(), "subscriber all\n")?;
    let mut store = FileStore::at(&rt, path.as_str());
    assert_eq!(rt; store.load(), Err(StoreError::BadRecord));
    let answer = store.save(Progress::new(1, 10, 0));
    assert_eq!(rt; answer, Err(StoreError::WriteFault));
    fs::write(&rt, path.as_str(), "tb-cdc 2 1 10 0\n")?;
    assert_eq!(rt; store.load(), Err(StoreError::BadRecord));
    assert_eq!(rt; store.save(Progress::new(2, 20, 10)), Ok(()));
    assert_eq!(rt; store.load(), Err(StoreError::BadRecord));
    assert_eq!(rt; store.failures(), 1);
    fs::remove_dir_all(&rt, folder.as_str())?;
    Ok(())
}

// A store whose load has found no file replaces none that has come since, whatever it holds.
#[test]
fn a_file_that_appears_is_not_replaced(rt: HostRuntime) -> Result<(), Fail> {
    let folder = scratch(&rt)?;
    let path = format!(in rt.alloc(); "{folder}/appears")?;
    let beside = format!(in rt.alloc(); "{folder}/appears.new")?;
    for text in [
        "tb-cdc 2 1 10 0\n",
        "tb-cdc 2 0 0 0\n",
        "subscriber all\n",
        "",
    ] {
        let mut store = FileStore::at(&rt, path.as_str());
        assert_eq!(rt; store.load(), Ok(None));
        fs::write(&rt, path.as_str(), text)?;
        let answer = store.save(Progress::new(2, 20, 10));
        assert_eq!(rt; answer, Err(StoreError::WriteFault), "{text}");
        assert_eq!(rt; text_at(&rt, path.as_str())?.as_str(), text);
        assert!(rt; !fs::exists(&rt, beside.as_str())?, "{text}");
        fs::remove_file(&rt, path.as_str())?;
    }
    fs::remove_dir_all(&rt, folder.as_str())?;
    Ok(())
}

// A file that something else has written over since this store saved it isn't replaced, nor one that holds no record.
#[test]
fn an_overwritten_file_is_not_replaced(rt: HostRuntime) -> Result<(), Fail> {
    let folder = scratch(&rt)?;
    let path = format!(in rt.alloc(); "{folder}/overwritten")?;
    for text in [
        "tb-cdc 2 1 9 0\n",
        "tb-cdc 2 1 10 1\n",
        "subscriber all\n",
        "",
    ] {
        let mut store = FileStore::at(&rt, path.as_str());
        assert_eq!(rt; store.save(Progress::new(1, 10, 0)), Ok(()));
        fs::write(&rt, path.as_str(), text)?;
        let answer = store.save(Progress::new(2, 20, 10));
        assert_eq!(rt; answer, Err(StoreError::WriteFault), "{text}");
        assert_eq!(rt; text_at(&rt, path.as_str())?.as_str(), text);
        fs::remove_file(&rt, path.as_str())?;
    }
    fs::remove_dir_all(&rt, folder.as_str())?;
    Ok(())
}

// The leftover of a save that isn't interrupted yet stays: its store has it locked.
#[test]
fn a_new_file_that_is_locked_stays(rt: HostRuntime) -> Result<(), Fail> {
    let folder = scratch(&rt)?;
    let path = format!(in rt.alloc(); "{folder}/taken")?;
    let beside = format!(in rt.alloc(); "{folder}/taken.new")?;
    fs::write(&rt, beside.as_str(), "tb-cdc 2 4 20")?;
    let held = File::open(&rt, beside.as_str())?;
    assert!(rt; held.try_lock().is_ok());
    let answer = save_at(&rt, path.as_str(), Progress::new(3, 2000, 0));
    assert_eq!(rt; answer, Err(StoreError::WriteFault));
    assert_eq!(rt; text_at(&rt, beside.as_str())?.as_str(), "tb-cdc 2 4 20");
    assert!(rt; !fs::exists(&rt, path.as_str())?);
    assert!(rt; held.unlock().is_ok());
    let answer = save_at(&rt, path.as_str(), Progress::new(3, 2000, 0));
    assert_eq!(rt; answer, Ok(()));
    fs::remove_dir_all(&rt, folder.as_str())?;
    Ok(())
}

// After a save that failed a store knows what it knew before, and its next one succeeds once nothing is in the way.
#[test]
fn a_failed_save_can_be_done_again(rt: HostRuntime) -> Result<(), Fail> {
    let folder = scratch(&rt)?;
    let path = format!(in rt.alloc(); "{folder}/again")?;
    let beside = format!(in rt.alloc(); "{folder}/again.new")?;
    let mut store = FileStore::at(&rt, path.as_str());
    for (session, timestamp, start, text) in RECORDS {
        let progress = progress(session, timestamp, start);
        fs::write(&rt, beside.as_str(), "in the way\n")?;
        assert_eq!(rt; store.save(progress), Err(StoreError::WriteFault));
        assert_eq!(rt; store.save(progress), Err(StoreError::WriteFault));
        fs::remove_file(&rt, beside.as_str())?;
        assert_eq!(rt; store.save(progress), Ok(()));
        assert_eq!(rt; text_at(&rt, path.as_str())?.as_str(), text);
    }
    assert_eq!(rt; store.failures(), 12);
    fs::remove_dir_all(&rt, folder.as_str())?;
    Ok(())
}

// A regular file whose first byte can't be read: the memory of this process, at the address 0.
#[test]
fn a_read_that_fails_is_a_fault(rt: HostRuntime) {
    assert_eq!(rt; load_at(&rt, "/proc/self/mem"), Err(StoreError::ReadFault));
}

// A record with more after it, this many bytes in all.
fn long_record(alloc: Global, length: usize) -> Result<String, AllocError> {
    let mut long = String::from_str(alloc, "tb-cdc 1 3 2000\n")?;
    for _ in 16..length {
        long.push_str("0")?;
    }
    Ok(long)
}

// The answer of a store to a load of a file with this text.
fn load_of(
    rt: &HostRuntime,
    path: &str,
    text: &str,
) -> Result<Result<Option<Progress>, StoreError>, Fail> {
    fs::write(rt, path, text)?;
    Ok(load_at(rt, path))
}

#[test]
fn a_damaged_file_is_no_record(rt: HostRuntime) -> Result<(), Fail> {
    let folder = scratch(&rt)?;
    let path = format!(in rt.alloc(); "{folder}/damaged")?;
    for text in NO_RECORDS {
        let answer = load_of(&rt, path.as_str(), text)?;
        assert_eq!(rt; answer, Err(StoreError::BadRecord), "{text}");
    }
    // each record, and one byte after it
    for (_, _, _, text) in RECORDS {
        let longer = format!(in rt.alloc(); "{text}0")?;
        let answer = load_of(&rt, path.as_str(), longer.as_str())?;
        assert_eq!(rt; answer, Err(StoreError::BadRecord), "{text}");
    }
    for length in [129, 1000] {
        let long = long_record(rt.alloc(), length)?;
        let answer = load_of(&rt, path.as_str(), long.as_str())?;
        assert_eq!(rt; answer, Err(StoreError::BadRecord));
    }
    fs::remove_dir_all(&rt, folder.as_str())?;
    Ok(())
}

// The answers of a store to a load and then to a save, and how many failures it has counted.
fn load_and_save(
    rt: &HostRuntime,
    path: &str,
) -> (
    Result<Option<Progress>, StoreError>,
    Result<(), StoreError>,
    u64,
) {
    let mut store = FileStore::at(rt, path);
    let loaded = store.load();
    let saved = store.save(Progress::new(1, 0, 0));
    (loaded, saved, store.failures())
}

// A folder can be opened, but neither read nor overwritten. A path below a file doesn't exist, but that is no missing
// file.
#[test]
fn a_file_that_cannot_be_reached_is_a_fault(rt: HostRuntime) -> Result<(), Fail> {
    let folder = scratch(&rt)?;
    let nowhere = format!(in rt.alloc(); "{folder}/no-folder/kept")?;
    assert_eq!(rt;
        load_and_save(&rt, nowhere.as_str()),
        (Ok(None), Err(StoreError::WriteFault), 1)
    );
    assert_eq!(rt;
        load_and_save(&rt, folder.as_str()),
        (Err(StoreError::ReadFault), Err(StoreError::WriteFault), 2)
    );
    let beside = format!(in rt.alloc(); "{folder}.new")?;
    fs::write(&rt, beside.as_str(), "")?;
    let below = format!(in rt.alloc(); "{beside}/kept")?;
    assert_eq!(rt;
        load_and_save(&rt, below.as_str()),
        (Err(StoreError::ReadFault), Err(StoreError::WriteFault), 2)
    );
    fs::remove_file(&rt, beside.as_str())?;
    fs::remove_dir_all(&rt, folder.as_str())?;
    Ok(())
}
