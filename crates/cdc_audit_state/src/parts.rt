//! What the lines of a state's text contain, taken one after another.

ghost use Rattle.std.specs.Prelude.{◌≡◌, ℕ, List, [], IfOk, IsSomeAnd, OnOk, fold};
ghost use Rattle.std.specs.List.{AllByRecursion};
ghost use Rattle.cdc_audit_state.specs.Parts.{GivesParts, no_parts, with_row};
ghost use Rattle.cdc_audit_state.specs.States.{rows_text};

use crate::rows::{Row, read_row};
use cdc_audit::{FixedFields, OpenOnes, Stored};
use cdc_keys::{HashKey, KeyedMap};
use cdc_subscriber::Book;
use cdc_types::Event;
use indexmap::IndexMap;
use std::alloc::{AllocError, Global};
use std::marker::Model;

/// The parts of a state that its lines contain.
#[derive(Drop)]
pub(crate) struct Parts {
    pub(crate) book: Book,
    pub(crate) expired: Option<Event>,
    pub(crate) transfers: KeyedMap<u128, Stored>,
    pub(crate) open_ones: OpenOnes,
    pub(crate) fields: KeyedMap<u128, FixedFields>,
    pub(crate) times: Vec<u64>,
}

impl Model for Parts {
    ghost use Rattle.cdc_audit_state.specs.Parts.{PartsState};

    ghost Value = { PartsState };

    ghost view = { λ p. record {
      accounts = p.book;
      expired = p.expired;
      transfers = p.transfers.entries;
      open_ones = p.open_ones;
      fixed = p.fields.entries;
      times = p.times.items;
    } };
}

impl Parts {
    fn new(alloc: Global, key: HashKey) -> Parts
        ensures { result ≡ no_parts }
    {
        Parts {
            book: Book::keyed(alloc, key),
            expired: None,
            transfers: IndexMap::with_hasher(alloc, key),
            open_ones: OpenOnes::new(alloc, key),
            fields: IndexMap::with_hasher(alloc, key),
            times: Vec::new(alloc),
        }
    }

    /// Adds what a line contains.
    fn add(&mut self, row: Row) -> Result<(), AllocError>
        ensures { OnOk result (self.new ≡ with_row self.old row) }
    {
        match row {
            Row::Account(entry) => {
                let _added = self.book.push(entry)?;
            }
            Row::Expired(event) => self.expired = Some(event),
            Row::Transfer(id, stored) => {
                if self.transfers.insert(id, stored).is_err() {
                    return Err(AllocError);
                }
            }
            Row::Open(event) => {
                let _added = self.open_ones.add(&event)?;
            }
            Row::Fields(id, fields) => {
                if self.fields.insert(id, fields).is_err() {
                    return Err(AllocError);
                }
            }
            Row::Time(timestamp) => {
                if self.times.push(timestamp).is_err() {
                    return Err(AllocError);
                }
            }
        }
        Ok(())
    }
}

/// The parts of a text of such lines. `None`: a line is none.
pub(crate) fn read_parts(
    alloc: Global,
    key: HashKey,
    text: &[u8],
) -> Result<Option<Parts>, AllocError>
    ensures { IfOk result (λ read. GivesParts text.now read) }
{
    let mut parts = Parts::new(alloc, key);
    let mut rest = text;
    while !rest.is_empty() {
        let Some(read) = read_row(alloc, rest)? else {
            return Ok(None);
        };
        parts.add(read.row)?;
        rest = read.rest;
    }
    Ok(Some(parts))
}
