//! A text in a file that is replaced as a whole, or to which others are appended, such as a follower's book.

use crate::stores::LogStore;
use cdc_files::{
    Leftover, Replaced, StoreError, names, open_locked, path_of_new, replace, target_of,
};
use std::alloc::Global;
use std::fs::{File, Files, Metadata};
use std::io;
use std::io::{ErrorKind, Read, Write};
use std::os::unix::fs::MetadataExt;

/// A text in a file: a follower's book, or another text that begins with a mark of its own.
///
/// `replace` writes the file `PATH.new`, syncs it to the disk and renames it to PATH, so if it is interrupted, the old
/// text is left. `append` writes at the end of PATH and syncs that, so if it is interrupted, the old text is left, and
/// perhaps a part of the new one after it; if it fails, the file is cut to the old text again. It is refused after
/// another one that failed. If PATH is a link, both names refer to the link's target, and the link stays. The file's
/// owner, group and mode are kept; `replace` is refused if that isn't permitted.
///
/// The file is locked from its opening or its first writing on, and another process that uses it is refused. Writing is
/// refused if PATH no longer names this file, if something else has written into the file, by its length and the time
/// of its last change, or if nobody may write it; and `replace` is if `PATH.new` exists and can't be the leftover of an
/// interrupted one, by the text's mark.
///
/// No contract can state what a file holds.
#[derive(Drop)]
pub struct LogFile<'a, R> {
    rt: &'a R,
    path: String,
    new_path: String,
    /// The first bytes of each text of this kind.
    mark: &'static [u8],
    /// The file, locked, once there is one.
    held: Option<HeldFile>,
}

/// An open file, locked.
#[derive(Drop)]
struct HeldFile {
    file: File,
    /// What it was when it was last read or written.
    stamp: Stamp,
    /// Something may follow the text in it that is no whole text.
    is_torn: bool,
}

/// By what a file is known again.
#[derive(Clone, Copy, PartialEq, Eq)]
struct Stamp {
    bytes: u64,
    seconds: i64,
    nanoseconds: i64,
}

/// The stamp of a file with this metadata.
fn stamp_of(metadata: &Metadata) -> Stamp {
    Stamp {
        bytes: metadata.len(),
        seconds: metadata.mtime(),
        nanoseconds: metadata.mtime_nsec(),
    }
}

impl HeldFile {
    /// A file that nobody else has written into since it had this stamp.
    fn new(file: File, stamp: Stamp) -> HeldFile {
        HeldFile {
            file,
            stamp,
            is_torn: false,
        }
    }

    /// Whether nothing else has written into it.
    fn is_as_known(&self) -> io::Result<bool> {
        Ok(stamp_of(&self.file.metadata()?) == self.stamp)
    }

    /// Appends a text, and syncs it to the disk.
    fn append(&mut self, text: &[u8]) -> io::Result<()> {
        self.is_torn = true;
        // (at a limit on the size of files, a write after one of a part would end the process)
        if self.file.write(text)? < text.len() {
            return Err(io::Error::from(ErrorKind::WriteZero));
        }
        self.file.sync_data()?;
        self.stamp = stamp_of(&self.file.metadata()?);
        self.is_torn = false;
        Ok(())
    }

    /// Cuts off what follows the text, if that can be done.
    fn cut(&self) {
        let _ = self.file.set_len(self.stamp.bytes);
    }
}

/// The error of a store whose file can't be opened or read.
fn read_error(error: io::Error) -> StoreError {
    match error.kind() {
        ErrorKind::OutOfMemory => StoreError::OutOfMemory,
        _ => StoreError::ReadFault,
    }
}

/// The error of a store whose file can't be written.
fn write_error(error: io::Error) -> StoreError {
    match error.kind() {
        ErrorKind::OutOfMemory => StoreError::OutOfMemory,
        _ => StoreError::WriteFault,
    }
}

impl<'a, R: Files<File = File> + AllocGlobal> LogFile<'a, R> {
    /// Opens the file at this path, and locks and reads it if there is one. Returns it with its text. `mark`: the first
    /// bytes of each text of its kind.
    pub fn open(
        rt: &'a R,
        path: &str,
        mark: &'static [u8],
    ) -> Result<(LogFile<'a, R>, Option<Vec<u8>>), StoreError> {
        let path = target_of(rt, path).map_err(read_error)?;
        let new_path = path_of_new(rt.alloc(), path.as_str())?;
        let opened = open_locked(rt, path.as_str()).map_err(read_error)?;
        let (held, text) = match opened {
            Some(file) => {
                let (held, text) = read_held(rt.alloc(), file).map_err(read_error)?;
                (Some(held), Some(text))
            }
            None => (None, None),
        };
        let log = LogFile {
            rt,
            path,
            new_path,
            mark,
            held,
        };
        Ok((log, text))
    }

    /// An error unless the file may be written: its path names it still, and nothing else has written into it.
    fn check(&self, held: &HeldFile) -> io::Result<()> {
        if !names(self.rt, self.path.as_str(), &held.file)? || !held.is_as_known()? {
            return Err(io::Error::from(ErrorKind::InvalidData));
        }
        Ok(())
    }

    /// Replaces the content of the file, and returns the file with this content.
    fn put(&self, text: &[u8]) -> io::Result<HeldFile> {
        let current = match &self.held {
            Some(held) => {
                self.check(held)?;
                Some(&held.file)
            }
            None => None,
        };
        let file = Replaced {
            path: self.path.as_str(),
            new_path: self.new_path.as_str(),
            leftover: Leftover::Begins,
            mark: self.mark,
        };
        let made = replace(self.rt, file, current, text)?;
        let stamp = stamp_of(&made.metadata()?);
        Ok(HeldFile::new(made, stamp))
    }

    /// An error unless a text may be appended.
    fn check_append(&self) -> io::Result<()> {
        let Some(held) = &self.held else {
            return Err(io::Error::from(ErrorKind::NotFound));
        };
        if held.is_torn {
            return Err(io::Error::from(ErrorKind::InvalidData));
        }
        if held.file.metadata()?.permissions().readonly() {
            return Err(io::Error::from(ErrorKind::PermissionDenied));
        }
        self.check(held)
    }

    /// Appends a text to the file.
    fn add(&mut self, text: &[u8]) -> io::Result<()> {
        self.check_append()?;
        let Some(held) = &mut self.held else {
            return Err(io::Error::from(ErrorKind::NotFound));
        };
        let added = held.append(text);
        if added.is_err() {
            held.cut();
        }
        added?;
        self.check_name()
    }

    /// An error unless the path names the file still. What was written into a file that something else has replaced
    /// isn't saved.
    fn check_name(&self) -> io::Result<()> {
        match &self.held {
            Some(held) if names(self.rt, self.path.as_str(), &held.file)? => Ok(()),
            _ => Err(io::Error::from(ErrorKind::InvalidData)),
        }
    }
}

/// Reads the text of a locked file. Its stamp is that of before, so what is written into it meanwhile is noticed.
fn read_held(alloc: Global, mut file: File) -> io::Result<(HeldFile, Vec<u8>)> {
    let stamp = stamp_of(&file.metadata()?);
    let mut text = Vec::new(alloc);
    file.read_to_end(&mut text)?;
    Ok((HeldFile::new(file, stamp), text))
}

impl<'a, R: Files<File = File> + AllocGlobal> LogStore for LogFile<'a, R> {
    ghost use Rattle.std.specs.Prelude.{None};

    ghost texts = { λ _. None };

    fn replace(&mut self, text: &[u8]) -> Result<(), StoreError> {
        let held = self.put(text).map_err(write_error)?;
        self.held = Some(held);
        Ok(())
    }

    fn append(&mut self, text: &[u8]) -> Result<(), StoreError> {
        self.add(text).map_err(write_error)
    }
}
