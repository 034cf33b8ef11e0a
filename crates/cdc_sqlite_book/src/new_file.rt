//! A new file of a book: an SQLite file without tables, which is put in place as a whole.

ghost use Rattle.std.specs.Prelude.{◌≡◌};
ghost use Rattle.cdc_sqlite_book.specs.NewFile.{empty_file};

use cdc_files::{Leftover, Replaced, path_of_new, replace};
use std::fs::File;
use std::io;

/// The first bytes of an SQLite file.
pub const MAGIC: &[u8] = b"SQLite format 3\0";

/// The length of a page, in bytes.
const PAGE_BYTES: usize = 4096;

/// How a new file begins: the mark, the length of a page, a rollback journal, and how much of a page a row may take.
const START: &[u8] = b"SQLite format 3\0\x10\0\x01\x01\0@  ";

/// Where the header has the last byte of the count of pages.
const PAGE_COUNT: usize = 31;

/// Where the header has the last byte of the version of the schema's format.
const SCHEMA_FORMAT: usize = 47;

/// Where the header has the last byte of the encoding of text.
const ENCODING: usize = 59;

/// Where the first page has its kind, after the header.
const KIND: usize = 100;

/// Where the first page has the first byte of the place at which its rows begin, which is its end.
const ROWS: usize = 105;

/// The bytes of an SQLite file without tables: one page without rows.
fn empty_file() -> [u8; PAGE_BYTES]
    ensures { result ≡ empty_file }
{
    let mut page = [0u8; PAGE_BYTES];
    page[..START.len()].copy_from_slice(START);
    page[PAGE_COUNT] = 1;
    page[SCHEMA_FORMAT] = 4;
    page[ENCODING] = 1;
    page[KIND] = 13;
    page[ROWS] = 16;
    page
}

/// Puts a new file at a path where there is none, and locks it. What an interruption leaves beside it is a prefix of
/// the new file, and only that is removed.
pub fn put_new(rt: &HostRuntime, path: &str) -> io::Result<File> {
    let new_path = path_of_new(rt.alloc(), path)?;
    let page = empty_file();
    let file = Replaced {
        path,
        new_path: new_path.as_str(),
        leftover: Leftover::PrefixOf,
        mark: page.as_slice(),
    };
    replace(rt, file, None, page.as_slice())
}
