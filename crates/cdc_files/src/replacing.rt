//! Replacing a file as a whole.

ghost use Rattle.std.specs.Prelude.{◌≡◌, ◌<◌, ◌≤◌, ◌++◌, codes, length, take, IfOk, OnOk, string_bytes};
ghost use Rattle.std.specs.Io.KnownBytes.{Appends, Consumes, IsAtEnd};
ghost use Rattle.cdc_files.specs.Leftovers.{is_short_leftover as may_be_left};

use std::alloc::{AllocError, Global};
use std::fs::{File, Files, Metadata, OpenFile, OpenOptions, TryLockError};
use std::io::{ErrorKind, Read, Write};
use std::os::unix::fs::{MetadataExt, OpenOptionsExt, PermissionsExt, fchown};
use std::{fs, io};

/// The bytes that are read at a time.
const PIECE_BYTES: usize = 4096;

/// The bytes that are written at a time.
const WRITTEN_BYTES: usize = 1 << 20;

/// The mode of a file that replaces none, from which the user's mask takes bits.
const NEW_MODE: u32 = 0o666;

/// The bits of a mode that say who may read, write and run a file.
const PERMISSION_BITS: u32 = 0o777;

/// How often a file is opened that something else replaces before it is locked.
const OPENINGS: u32 = 100;

/// A file that is replaced: where it is, and where its next content is written first.
#[derive(Clone, Copy)]
pub struct Replaced<'a> {
    /// The path of the file, which is no link.
    pub path: &'a str,
    /// The path of the file that is written first.
    pub new_path: &'a str,
    /// What a file at `new_path` has to hold to be the leftover of an interrupted replacement. Any other one isn't
    /// removed.
    pub leftover: Leftover,
    /// The bytes with which such a leftover is compared.
    pub mark: &'a [u8],
}

/// What an interrupted replacement can leave.
#[derive(Clone, Copy)]
pub enum Leftover {
    /// A file that begins with the mark, as far as it goes.
    Begins,
    /// The same, of at most so many bytes, below 4,096.
    Short(usize),
    /// A file whose whole content is a prefix of the mark.
    PrefixOf,
}

/// Locks a file that isn't locked here, and returns whether another holder has it locked already. On a system without
/// locks it returns false.
fn is_taken(file: &File) -> bool {
    match file.try_lock() {
        Err(TryLockError::WouldBlock) => true,
        Err(TryLockError::Error(_)) | Ok(()) => false,
    }
}

/// Opens a file without a lock; `None` if there is no file. Anything but a plain file, such as a folder or a pipe, is the
/// error `InvalidInput` and isn't opened, since that might block.
pub fn open_plain<R: Files<File = File>>(rt: &R, path: &str) -> io::Result<Option<File>> {
    match fs::metadata(rt, path) {
        Ok(metadata) if metadata.is_file() => Ok(Some(File::open(rt, path)?)),
        Ok(_) => Err(io::Error::from(ErrorKind::InvalidInput)),
        Err(error) if error.kind() == ErrorKind::NotFound => Ok(None),
        Err(error) => Err(error),
    }
}

/// Whether a path names this open file.
pub fn names<R: Files<File = File>>(rt: &R, path: &str, file: &File) -> io::Result<bool> {
    let named = match fs::metadata(rt, path) {
        Err(error) if error.kind() == ErrorKind::NotFound => return Ok(false),
        named => named?,
    };
    let open = file.metadata()?;
    Ok(named.dev() == open.dev() && named.ino() == open.ino())
}

/// Opens a file as `open_plain` does, and locks it until it is dropped. The path names the file when it is locked: if
/// something else has replaced it meanwhile, the new one is opened. A file that is locked already is the error
/// `WouldBlock`.
pub fn open_locked<R: Files<File = File>>(rt: &R, path: &str) -> io::Result<Option<File>> {
    for _ in 0..OPENINGS {
        match lock_once(rt, path)? {
            Some(file) if !names(rt, path, &file)? => {}
            found => return Ok(found),
        }
    }
    Err(io::Error::from(ErrorKind::WouldBlock))
}

/// Opens the file that a path names now, and locks it; `None` if there is no file.
fn lock_once<R: Files<File = File>>(rt: &R, path: &str) -> io::Result<Option<File>> {
    match open_plain(rt, path)? {
        Some(file) if is_taken(&file) => Err(io::Error::from(ErrorKind::WouldBlock)),
        found => Ok(found),
    }
}

/// The path of the file that a path refers to, with links resolved. If there is no file, it is the path itself; a link
/// without a target is the error `NotFound`.
pub fn target_of<R: Files<File = File> + AllocGlobal>(rt: &R, path: &str) -> io::Result<String> {
    match fs::canonicalize(rt, path) {
        Ok(target) => Ok(target.into_string()),
        Err(error) if error.kind() == ErrorKind::NotFound => {
            if fs::symlink_metadata(rt, path).is_ok() {
                return Err(error);
            }
            String::from_str(rt.alloc(), path).or(Err(io::Error::from(ErrorKind::OutOfMemory)))
        }
        Err(error) => Err(error),
    }
}

/// The path of the file that is written before it is put in place of the file at this path.
pub fn path_of_new(alloc: Global, path: &str) -> Result<String, AllocError>
    ensures { IfOk result (λ text. string_bytes text ≡ path.now ++ codes ".new") }
{
    let mut text = String::new(alloc);
    text.push_str(path)?;
    text.push_str(".new")?;
    Ok(text)
}

/// Reads until the buffer is full or the reader ends, and returns the number of bytes read.
pub fn fill<F: Read>(reader: &mut F, buffer: &mut [u8]) -> io::Result<usize>
    ensures count { IfOk result (λ filled. filled ≤ length buffer.new) }
    ensures size { length buffer.new ≡ length buffer.old }
    ensures text { IfOk result (λ filled. Consumes (F.remaining reader.old) (F.remaining reader.new)
        (take filled buffer.new)) }
    ensures whole { IfOk result (λ filled. filled < length buffer.new
        → IsAtEnd (F.remaining reader.new)) }
{
    let mut filled = 0;
    while filled < buffer.len() {
        let count = reader.read(&mut buffer[filled..])?;
        if count == 0 {
            return Ok(filled);
        }
        filled += count;
    }
    Ok(filled)
}

/// Whether a reader has exactly these bytes left.
pub fn holds<F: Read>(reader: &mut F, bytes: &[u8]) -> io::Result<bool> {
    Ok(rest_after(reader, bytes)? == Some(0))
}

/// How many of these bytes are left after those that a reader has; `None` if it has others.
fn rest_after<F: Read>(reader: &mut F, bytes: &[u8]) -> io::Result<Option<usize>> {
    let mut piece = [0u8; PIECE_BYTES];
    let mut rest = bytes;
    for _ in 0..u64::MAX {
        let count = reader.read(&mut piece)?;
        if count == 0 {
            return Ok(Some(rest.len()));
        }
        if !rest.starts_with(&piece[..count]) {
            return Ok(None);
        }
        rest = &rest[count..];
    }
    Ok(None)
}

/// Gives a new file the owner, the group and the mode of the one that it is to replace.
fn keep_owner(file: &File, current: &Metadata) -> io::Result<()> {
    let made = file.metadata()?;
    if made.uid() != current.uid() || made.gid() != current.gid() {
        fchown(file, Some(current.uid()), Some(current.gid()))?;
    }
    file.set_permissions(current.permissions())
}

/// Writes a whole text into a new file, whose owner and mode are those of the current one, if there is one, and syncs it
/// to the disk.
fn write_whole(file: &mut File, current: &Option<Metadata>, text: &[u8]) -> io::Result<()> {
    if let Some(current) = current {
        keep_owner(file, current)?;
    }
    write_text(file, text)?;
    file.sync_all()
}

/// Writes a whole text. If a part of it alone can be written, as on a full disk, that is the error `WriteZero`: at a limit
/// on the size of files, a further write would end the process.
fn write_text<W: Write>(writer: &mut W, text: &[u8]) -> io::Result<()>
    ensures { OnOk result (Appends (W.contents writer.old) (W.contents writer.new) text.now) }
{
    let mut rest = text;
    for _ in 0..u64::MAX {
        if rest.is_empty() {
            return Ok(());
        }
        let size = rest.len().min(WRITTEN_BYTES);
        match writer.write(&rest[..size]) {
            Ok(count) if count == size => rest = &rest[count..],
            Ok(_) => break,
            Err(error) if error.kind() == ErrorKind::Interrupted => {}
            Err(error) => return Err(error),
        }
    }
    Err(io::Error::from(ErrorKind::WriteZero))
}

/// Opens and locks the file at this path, if it can be the leftover of an interrupted replacement: a plain file that nobody
/// has locked, with such a content. Nobody else takes it for a leftover, or writes it, while it is locked.
fn open_leftover<R: Files<File = File>>(
    rt: &R,
    path: &str,
    leftover: Leftover,
    mark: &[u8],
) -> io::Result<Option<File>> {
    if !fs::symlink_metadata(rt, path)?.is_file() {
        return Ok(None);
    }
    let mut file = File::open(rt, path)?;
    if is_taken(&file) || !names(rt, path, &file)? {
        return Ok(None);
    }
    let is_left = match leftover {
        Leftover::Begins => begins(&mut file, mark, usize::MAX)?,
        Leftover::Short(most) => begins(&mut file, mark, most)?,
        Leftover::PrefixOf => rest_after(&mut file, mark)?.is_some(),
    };
    Ok(if is_left { Some(file) } else { None })
}

/// Whether the bytes of a reader begin with a mark, as far as they go, and are at most so many.
fn begins<F: Read>(reader: &mut F, mark: &[u8], most: usize) -> io::Result<bool> {
    let mut piece = [0u8; PIECE_BYTES];
    let count = fill(reader, &mut piece)?;
    Ok(is_short_leftover(&piece[..count], mark, most))
}

/// Whether these bytes begin with a mark, as far as they go, and are at most so many.
fn is_short_leftover(bytes: &[u8], mark: &[u8], most: usize) -> bool
    ensures { result ≡ may_be_left mark.now most bytes.now }
{
    bytes.len() <= most && (bytes.starts_with(mark) || mark.starts_with(bytes))
}

/// Creates a file of this mode, which isn't there yet.
fn create<R: Files<File = File>>(rt: &R, path: &str, mode: u32) -> io::Result<File> {
    OpenOptions::new()
        .read(true)
        .write(true)
        .create_new(true)
        .mode(mode)
        .open(rt, path)
}

/// Creates the file that is written first, with this mode, and locks it, in place of the leftover of an interrupted
/// replacement, if there is one.
fn make_new<R: Files<File = File>>(rt: &R, file: Replaced<'_>, mode: u32) -> io::Result<File> {
    let made = match create(rt, file.new_path, mode) {
        Err(error) if error.kind() == ErrorKind::AlreadyExists => {
            let Some(_left) = open_leftover(rt, file.new_path, file.leftover, file.mark)? else {
                return Err(error);
            };
            fs::remove_file(rt, file.new_path)?;
            create(rt, file.new_path, mode)?
        }
        made => made?,
    };
    // (before it was locked, another run may have taken it for a leftover)
    if is_taken(&made) || !names(rt, file.new_path, &made)? {
        return Err(io::Error::from(ErrorKind::WouldBlock));
    }
    Ok(made)
}

/// The mode with which a new file is made: that of the current one, if there is one, as far as others are concerned, so
/// that nobody can read the new file who can't read this. One in which nobody may write is the error `PermissionDenied`.
fn mode_of_new(current: &Option<Metadata>) -> io::Result<u32> {
    match current {
        Some(current) if current.permissions().readonly() => {
            Err(io::Error::from(ErrorKind::PermissionDenied))
        }
        Some(current) => Ok(current.permissions().mode() & PERMISSION_BITS),
        None => Ok(NEW_MODE),
    }
}

/// Puts the file that was written in place of the current one, which its path has to name still; without a current
/// one, where nothing is.
fn put_in_place<R: Files<File = File>>(
    rt: &R,
    file: Replaced<'_>,
    current: Option<&File>,
) -> io::Result<()> {
    let is_free = match current {
        Some(current) => names(rt, file.path, current)?,
        None => fs::symlink_metadata(rt, file.path).is_err(),
    };
    if !is_free {
        return Err(io::Error::from(ErrorKind::AlreadyExists));
    }
    fs::rename(rt, file.new_path, file.path)
}

/// Replaces the content of a file, and returns the file with this content, locked. `current`: the file that is
/// replaced, locked; `None` makes a new one. An interrupted replacement leaves the old content, and so does one whose
/// path no longer names the current file. Owner, group and mode are kept; if that isn't permitted, or in this mode nobody
/// may write, the error is `PermissionDenied`.
pub fn replace<R: Files<File = File>>(
    rt: &R,
    file: Replaced<'_>,
    current: Option<&File>,
    text: &[u8],
) -> io::Result<File> {
    let metadata = match current {
        Some(current) => Some(current.metadata()?),
        None => None,
    };
    let mut made = make_new(rt, file, mode_of_new(&metadata)?)?;
    let written = match write_whole(&mut made, &metadata, text) {
        Ok(()) => put_in_place(rt, file, current),
        Err(error) => Err(error),
    };
    if let Err(error) = written {
        let _ = fs::remove_file(rt, file.new_path);
        return Err(error);
    }
    Ok(made)
}
