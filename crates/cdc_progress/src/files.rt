//! Progress in a file.

ghost use Rattle.std.specs.Prelude.{◌≡◌, ◌≤◌, IfErr, IfSome, Some, is_none, true};
ghost use Rattle.cdc_progress.specs.Stores.{IsCounted, IsLoadFault, ReadsAs, known_of, unread_of};

use crate::progress::Progress;
use crate::stores::ProgressStore;
use crate::texts::{parse, print};
use cdc_files::{
    Leftover, Replaced, StoreError, fill, open_locked, open_plain, path_of_new, target_of,
};
use cdc_types::Limits;
use std::fs::{File, Files};
use std::io;
use std::io::{ErrorKind, Read};

/// A store in a file. A save creates the file `PATH.new`, syncs it to the disk and renames it to PATH, so an
/// interrupted save leaves the old record. If PATH is a link, both names refer to the link's target, and the link
/// stays. The file's mode is kept, its owner isn't.
///
/// A store reads its file once, when it is made. `held` is the record that it read then or has saved since, and a load
/// returns that: nothing that something else writes to the file meanwhile. So a store is honest if the file could be
/// read as a record, or wasn't there; otherwise each of its loads reports why.
///
/// A save replaces only a record that it may replace. It is refused if `PATH.new` exists and can't be the leftover of
/// an interrupted save, if PATH is not a record or is a file that nobody may write, and if PATH holds another record
/// than this store has read or saved. After a successful load or save, and until its next call, a store keeps the file
/// locked, if there is one; another store that uses the file in the meantime is refused.
///
/// No contract can state what a file holds. That the next store at this path reads what this one saved is an
/// assumption; nothing here proves it.
#[derive(Drop)]
pub struct FileStore<'a, R> {
    rt: &'a R,
    path: &'a str,
    // Why the file couldn't be read as a record when the store was made, if it couldn't.
    unread: Option<StoreError>,
    // The record that was read when the store was made, or saved since.
    known: Option<Progress>,
    // The record's file, locked.
    file: Option<File>,
    failures: u64,
}

impl<'a, R: Files<File = File> + AllocGlobal> FileStore<'a, R> {
    /// A store in the file at this path. It reads the file, without a lock, and keeps what it has read; if it can't
    /// read it as a record, the loads report that.
    pub fn at(rt: &'a R, path: &'a str) -> FileStore<'a, R>
        ensures failures { result.failures ≡ 0 }
    {
        FileStore::over(rt, path, first_record(rt, path))
    }

    // A store in the file at this path, which was read with this result.
    fn over(
        rt: &'a R,
        path: &'a str,
        read: Result<Option<Progress>, StoreError>,
    ) -> FileStore<'a, R>
        ensures known { result.known ≡ known_of read }
        ensures unread { result.unread ≡ unread_of read }
        ensures failures { result.failures ≡ 0 }
    {
        let (known, unread) = match read {
            Ok(known) => (known, None),
            Err(error) => (None, Some(error)),
        };
        FileStore {
            rt,
            path,
            unread,
            known,
            file: None,
            failures: 0,
        }
    }

    // Adds 1 to the count of failures, which saturates.
    fn count_failure(&mut self)
        ensures counted { IsCounted self.old.failures self.new.failures }
        ensures more { self.old.failures ≤ self.new.failures }
        ensures kept { self.new.known ≡ self.old.known }
        ensures unread { self.new.unread ≡ self.old.unread }
    {
        self.failures = self.failures.saturating_add(1);
    }

    // Keeps the record that was saved, and its locked file.
    fn note(&mut self, saved: Progress, file: File)
        ensures known { self.new.known ≡ Some saved }
        ensures unread { self.new.unread ≡ self.old.unread }
        ensures failures { self.new.failures ≡ self.old.failures }
    {
        self.known = Some(saved);
        self.file = Some(file);
    }

    // Closes the file, which unlocks it.
    fn let_go(&mut self)
        ensures known { self.new.known ≡ self.old.known }
        ensures unread { self.new.unread ≡ self.old.unread }
        ensures failures { self.new.failures ≡ self.old.failures }
    {
        self.file = None;
    }

    // What the file must hold, if it exists, so that it may be replaced. `None`: any record, since this store hasn't
    // read or saved one.
    fn expected(&self) -> Option<Option<Progress>> {
        if self.unread.is_some() && self.known.is_none() {
            None
        } else {
            Some(self.known)
        }
    }
}

// The greatest length of a record, in bytes. A longer file is not a record.
const RECORD_BYTES: usize = Limits::PROGRESS_BYTES;

// The first bytes of each record, whatever its version.
const MARK: &[u8] = b"tb-cdc ";

// Reads a whole file as a record.
fn record_in<F: Read>(file: &mut F) -> Result<Progress, StoreError>
    ensures record { IfSome (F.remaining file.old) (λ bytes. ReadsAs bytes result) }
    ensures err { IfErr result IsLoadFault }
{
    let mut buffer = [0u8; RECORD_BYTES + 1];
    let Ok(count) = fill(file, &mut buffer) else {
        return Err(StoreError::ReadFault);
    };
    match parse(&buffer[..count]) {
        Some(progress) => Ok(progress),
        None => Err(StoreError::BadRecord),
    }
}

// A record, and the file that holds it, locked.
#[derive(Drop)]
struct Found {
    progress: Progress,
    file: File,
}

// Reads the record of a file without a lock; `None` if there is no file.
fn first_record<R: Files<File = File>>(rt: &R, path: &str) -> Result<Option<Progress>, StoreError>
    ensures { IfErr result IsLoadFault }
{
    match open_plain(rt, path) {
        Ok(Some(mut file)) => Ok(Some(record_in(&mut file)?)),
        Ok(None) => Ok(None),
        Err(_) => Err(StoreError::ReadFault),
    }
}

// Locks a file and reads its record; `None` if there is no file.
fn read_record<R: Files<File = File>>(rt: &R, path: &str) -> Result<Option<Found>, StoreError>
    ensures { IfErr result IsLoadFault }
{
    match open_locked(rt, path) {
        Ok(Some(mut file)) => {
            let progress = record_in(&mut file)?;
            Ok(Some(Found { progress, file }))
        }
        Ok(None) => Ok(None),
        Err(_) => Err(StoreError::ReadFault),
    }
}

// The store's error if a file can't be replaced.
fn replace_error(error: io::Error) -> StoreError {
    match error.kind() {
        ErrorKind::OutOfMemory => StoreError::OutOfMemory,
        _ => StoreError::WriteFault,
    }
}

// Replaces a file's content, if the file doesn't exist or holds what is expected. All allocations come first.
fn replace<R: Files<File = File> + AllocGlobal>(
    rt: &R,
    path: &str,
    expected: Option<Option<Progress>>,
    text: &str,
) -> Result<File, StoreError> {
    let target = target_of(rt, path).map_err(replace_error)?;
    let new_path = path_of_new(rt.alloc(), target.as_str())?;
    let old = read_record(rt, target.as_str())?;
    if let (Some(expected), Some(found)) = (expected, &old) {
        if expected != Some(found.progress) {
            return Err(StoreError::WriteFault);
        }
    }
    let file = Replaced {
        path: target.as_str(),
        new_path: new_path.as_str(),
        leftover: Leftover::Short(RECORD_BYTES),
        mark: MARK,
    };
    let current = match &old {
        Some(found) => Some(&found.file),
        None => None,
    };
    cdc_files::replace(rt, file, current, text.as_bytes()).or(Err(StoreError::WriteFault))
}

impl<'a, R: Files<File = File> + AllocGlobal> ProgressStore for FileStore<'a, R> {
    ghost held = { λ store. store.known };

    ghost failed = { λ store. store.failures };

    ghost is_honest = { λ store. is_none store.unread };

    ghost risks = { λ _. record { memory = true; faults = true } };

    fn load(&mut self) -> Result<Option<Progress>, StoreError> {
        self.let_go();
        match (open_locked(self.rt, self.path), self.unread) {
            (Ok(file), None) => {
                self.file = file;
                Ok(self.known)
            }
            (Ok(_), Some(StoreError::BadRecord)) => Err(StoreError::BadRecord),
            _ => {
                self.count_failure();
                Err(StoreError::ReadFault)
            }
        }
    }

    fn save(&mut self, progress: Progress) -> Result<(), StoreError> {
        let text = print(self.rt.alloc(), progress)?;
        let expected = self.expected();
        self.let_go();
        match replace(self.rt, self.path, expected, text.as_str()) {
            Ok(file) => {
                self.note(progress, file);
                Ok(())
            }
            Err(StoreError::OutOfMemory) => Err(StoreError::OutOfMemory),
            Err(_) => {
                self.count_failure();
                Err(StoreError::WriteFault)
            }
        }
    }

    fn failures(&self) -> u64 {
        self.failures
    }
}
