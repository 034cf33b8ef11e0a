//! What a file holds that can't be resumed, and what was asked of it.

use crate::kept_book::{is_in_sqlite, open_book_file, path_of_book};
use cdc_app_inputs::Escaped;
use cdc_audit_state::STATE_MARK;
use cdc_chain_command::CHAIN_MARK;
use cdc_checked_state::CHECKED_MARK;
use cdc_follow::BOOK_MARK;
use cdc_keys::HashKey;
use cdc_progress::StoreError;
use std::fs::{File, OpenOptions};
use std::io::Read;
use std::{fs, io, str};

/// How many bytes of a file are looked at.
const HEAD_BYTES: usize = 4096;

/// The first bytes of each file of SQLite.
const SQLITE_MARK: &[u8] = b"SQLite format 3\0";

/// The version of the books and states that this program reads.
const VERSION: &[u8] = b"1";

/// What is to be resumed.
#[derive(Clone, Copy)]
pub enum Asked<'a> {
    /// A book of `follow`, of a chained stream or not, with a binding of this text.
    Book {
        is_chained: bool,
        binding: &'a [u8],
    },
    /// A book of `follow --checked`, by baseline or not, with a binding of this text.
    Checked {
        by_baseline: bool,
        binding: &'a [u8],
    },
    /// A state of `audit`, with `--foreign` or without.
    Audit(bool),
    /// A state of `chain`.
    Chain,
}

/// What a file holds.
#[derive(Clone, Copy)]
enum Held<'a> {
    Nothing,
    Sqlite,
    /// A text of another version, which has this name.
    OtherVersion(&'a [u8]),
    /// A book of `follow`, of a chained stream or not, with a binding of this text.
    Book {
        is_chained: bool,
        binding: &'a [u8],
    },
    /// A book of `follow --checked`, by baseline or not, with a binding of this text.
    Checked {
        by_baseline: bool,
        binding: &'a [u8],
    },
    /// A state of `audit`, with `--foreign` or without.
    Audit(bool),
    /// A state of `chain`.
    Chain,
    Other,
}

/// Reports why the file of this name isn't resumed, whose content isn't what is asked for: what it holds, and what was
/// asked.
pub fn advise_on_held(rt: &HostRuntime, file: &str, asked: Asked<'_>) {
    let name = StoreError::BadRecord.name();
    let place = Escaped(file);
    let mut head = [0u8; HEAD_BYTES];
    let count = read_head(rt, file, &mut head);
    let held = held_in(&head[..count.min(HEAD_BYTES)]);
    let what = sentence_of(held, asked, is_in_sqlite(file));
    let _ = match (held, asked) {
        (
            Held::Book { binding, .. } | Held::Checked { binding, .. },
            Asked::Book {
                binding: wanted,
                ..
            }
            | Asked::Checked {
                binding: wanted,
                ..
            },
        ) if what.is_empty() && binding == wanted => {
            eprintln!(rt; "{place}: store: {name}: it is a book that is damaged: name another file")
        }
        (
            Held::Book { binding, .. } | Held::Checked { binding, .. },
            Asked::Book {
                binding: wanted,
                ..
            }
            | Asked::Checked {
                binding: wanted,
                ..
            },
        ) if what.is_empty() => {
            let binding = Escaped(str::from_utf8(binding).unwrap_or("?"));
            let wanted = Escaped(str::from_utf8(wanted).unwrap_or("?"));
            eprintln!(rt;
                "{place}: store: {name}: it is a book of --binding '{binding}', and --binding '{wanted}' is asked for: \
                 name its binding, or another file"
            )
        }
        (Held::OtherVersion(version), _) => {
            let version = Escaped(str::from_utf8(version).unwrap_or("?"));
            eprintln!(rt;
                "{place}: store: {name}: it is of version {version}, and this program reads version 1: use the \
                 program that wrote it, or name another file"
            )
        }
        _ => {
            let remedy = remedy_of(held, asked);
            eprintln!(rt; "{place}: store: {name}: {what}: {remedy}")
        }
    };
}

/// Why a book or a state of this name can't be written, if the system reports it: its folder is missing, or the file may
/// not be opened. None for every other error.
pub fn unwritten(rt: &HostRuntime, name: &str, error: StoreError) -> Option<io::Error> {
    if error != StoreError::WriteFault {
        return None;
    }
    let path = path_of_book(name);
    match fs::metadata(rt, path) {
        Ok(data) if data.is_file() => OpenOptions::new().append(true).open(rt, path).err(),
        Ok(_) => None,
        Err(_) => fs::metadata(rt, folder_of(path)).err(),
    }
}

/// The folder of a file.
fn folder_of(path: &str) -> &str {
    match path.rsplit_once('/') {
        Some(("", _)) => "/",
        Some((folder, _)) => folder,
        None => ".",
    }
}

/// Reads the first bytes of what the file of this name holds: those of the book's text if it is a book in an SQLite file.
/// Returns how many there are.
fn read_head(rt: &HostRuntime, file: &str, head: &mut [u8]) -> usize {
    if is_in_sqlite(file) {
        if let Ok((_, text)) = open_book_file(rt, file, HashKey::Fixed, 0) {
            if let Some(text) = text {
                let count = text.len().min(head.len());
                head[..count].copy_from_slice(&text.as_slice()[..count]);
                return count;
            }
        }
    }
    let path = path_of_book(file);
    // (opening a pipe would wait for a writer)
    if !fs::metadata(rt, path).is_ok_and(|data| data.is_file()) {
        return 0;
    }
    match File::open(rt, path) {
        Ok(mut opened) => opened.read(head).unwrap_or(0),
        Err(_) => 0,
    }
}

/// What a file holds that begins with these bytes.
fn held_in(head: &[u8]) -> Held<'_> {
    if head.is_empty() {
        return Held::Nothing;
    }
    if head.starts_with(SQLITE_MARK) {
        return Held::Sqlite;
    }
    for mark in [CHECKED_MARK, BOOK_MARK, STATE_MARK, CHAIN_MARK] {
        if let Some(rest) = head.strip_prefix(mark) {
            return held_after(mark, text_after(head, mark, rest));
        }
    }
    Held::Other
}

/// What follows the mark of a text: of a log, what follows it in the text of its first record.
fn text_after<'a>(head: &'a [u8], mark: &[u8], rest: &'a [u8]) -> &'a [u8] {
    if !rest.starts_with(b"0 bytes ") {
        return rest;
    }
    let first = line_of(head).len().saturating_add(1);
    match head.get(first..).and_then(|text| text.strip_prefix(mark)) {
        Some(text) => text,
        None => rest,
    }
}

/// What a text holds that has these bytes after this mark.
fn held_after<'a>(mark: &[u8], text: &'a [u8]) -> Held<'a> {
    let version = word_of(text);
    if version != VERSION {
        return Held::OtherVersion(version);
    }
    let first = line_of(text);
    let second = text.get(first.len().saturating_add(1)..).unwrap_or(b"");
    let binding = line_of(second.strip_prefix(b"binding ").unwrap_or(b""));
    if mark == BOOK_MARK {
        let is_chained = first.starts_with(b"1 chained yes");
        return Held::Book {
            is_chained,
            binding,
        };
    }
    if mark == CHECKED_MARK {
        let by_baseline = first.ends_with(b" baseline yes");
        return Held::Checked {
            by_baseline,
            binding,
        };
    }
    if mark == STATE_MARK {
        return Held::Audit(first.starts_with(b"1 foreign yes"));
    }
    Held::Chain
}

/// The bytes up to the first line feed, or all.
fn line_of(text: &[u8]) -> &[u8] {
    let length = text.iter().take_while(|byte| **byte != b'\n').count();
    text.get(..length).unwrap_or(text)
}

/// The bytes up to the first space or line feed, or all.
fn word_of(text: &[u8]) -> &[u8] {
    let length = text
        .iter()
        .take_while(|byte| **byte != b' ' && **byte != b'\n')
        .count();
    text.get(..length).unwrap_or(text)
}

/// Why what a file holds isn't what is asked for. Empty if it is, so that it has to be the binding or its content.
fn sentence_of(held: Held<'_>, asked: Asked<'_>, in_sqlite: bool) -> &'static str {
    match (held, asked) {
        (Held::Nothing, _) => "it is empty",
        (Held::Other, Asked::Audit(_) | Asked::Chain) => "it holds no state",
        (Held::Other, _) => "it holds no book",
        (Held::Sqlite, _) if in_sqlite => "it is an SQLite file with other tables than a book has",
        (Held::Sqlite, Asked::Book { .. }) => {
            "it is an SQLite file, and a text file is asked for: a book in it is sqlite:FILE"
        }
        (Held::Sqlite, _) => "it is an SQLite file, and a text file is asked for",
        (Held::OtherVersion(_), _) => "",
        (held, Asked::Book { is_chained, .. }) => no_book(held, is_chained),
        (held, Asked::Checked { by_baseline, .. }) => no_checked_book(held, by_baseline),
        (held, Asked::Audit(foreign)) => no_audit(held, foreign),
        (held, Asked::Chain) => no_chain(held),
    }
}

/// What to do with a file that holds this.
fn remedy_of(held: Held<'_>, asked: Asked<'_>) -> &'static str {
    match (held, asked) {
        (Held::Book { .. }, Asked::Book { .. }) => "name its options, or another file",
        (Held::Chain, Asked::Chain) => "name its queues in their order, or another file",
        _ => "name another file",
    }
}

/// Why this isn't a book of `follow`, of a chained stream or not.
fn no_book(held: Held<'_>, chained: bool) -> &'static str {
    match held {
        Held::Book {
            is_chained: true,
            ..
        } if !chained => { "it is a book of --chained, and one without it is asked for" }
        Held::Book {
            is_chained: false,
            ..
        } if chained => { "it is a book without --chained, and one of --chained is asked for" }
        Held::Checked { .. } => "it is a book of --checked, and one without it is asked for",
        Held::Audit(_) => "it is the state of an audit, and a book is asked for",
        Held::Chain => "it is the state of a chain, and a book is asked for",
        _ => "",
    }
}

/// Why this isn't a book of `follow --checked`.
fn no_checked_book(held: Held<'_>, by_baseline: bool) -> &'static str {
    match held {
        Held::Checked {
            by_baseline: true,
            ..
        } if !by_baseline => { "it is a book of --baseline, and one without it is asked for" }
        Held::Checked {
            by_baseline: false,
            ..
        } if by_baseline => {
            "it is a book without --baseline, and one of --baseline is asked for"
        }
        Held::Book {
            is_chained: true,
            ..
        } => { "it is a book of --chained, and one of --checked is asked for" }
        Held::Book { .. } => "it is a book without --checked, and one of --checked is asked for",
        Held::Audit(_) => "it is the state of an audit, and a book is asked for",
        Held::Chain => "it is the state of a chain, and a book is asked for",
        _ => "",
    }
}

/// Why this isn't a state of `audit`.
fn no_audit(held: Held<'_>, foreign: bool) -> &'static str {
    match held {
        Held::Audit(true) if !foreign => {
            "it is the state of an audit with --foreign, and one without it is asked for"
        }
        Held::Audit(false) if foreign => {
            "it is the state of an audit without --foreign, and one with it is asked for"
        }
        Held::Audit(_) => "it is a state that is damaged",
        Held::Chain => "it is the state of a chain, and one of an audit is asked for",
        _ => "it is a book, and the state of an audit is asked for",
    }
}

/// Why this isn't a state of `chain`.
fn no_chain(held: Held<'_>) -> &'static str {
    match held {
        Held::Audit(_) => "it is the state of an audit, and one of a chain is asked for",
        Held::Chain => { "it is the state of a chain of other queues, or damaged" }
        _ => "it is a book, and the state of a chain is asked for",
    }
}
