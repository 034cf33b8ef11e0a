//! What the lines of a state's text contain, taken one after another.

ghost use Rattle.std.specs.Prelude.{◌≡◌, IfOk, OnOk};
ghost use Rattle.cdc_checked_state.specs.Parts.{GivesParts, no_parts, with_row};

use crate::rows::{Row, read_row};
use cdc_checked::KnownAccount;
use cdc_keys::{HashKey, KeyedMap};
use cdc_types::{Balances, Event};
use indexmap::IndexMap;
use std::alloc::{AllocError, Global};
use std::marker::Model;

/// The parts of a state that its lines contain.
#[derive(Drop)]
pub(crate) struct Parts {
    pub(crate) book: KeyedMap<u128, Balances>,
    pub(crate) accounts: KeyedMap<u128, KnownAccount>,
    pub(crate) open_ones: KeyedMap<u128, Event>,
}

impl Model for Parts {
    ghost use Rattle.cdc_checked_state.specs.Parts.{PartsState};

    ghost Value = { PartsState };

    ghost view = { λ p. record {
      book = p.book.entries;
      accounts = p.accounts.entries;
      open_ones = p.open_ones.entries;
    } };
}

impl Parts {
    fn new(alloc: Global, key: HashKey) -> Parts
        ensures { result ≡ no_parts }
    {
        Parts {
            book: IndexMap::with_hasher(alloc, key),
            accounts: IndexMap::with_hasher(alloc, key),
            open_ones: IndexMap::with_hasher(alloc, key),
        }
    }

    /// Adds what a line contains.
    fn add(&mut self, row: Row) -> Result<(), AllocError>
        ensures { OnOk result (self.new ≡ with_row self.old row) }
    {
        match row {
            Row::Account(entry) => {
                if self.book.insert(entry.id, entry.balances).is_err() {
                    return Err(AllocError);
                }
            }
            Row::Known(id, known) => {
                if self.accounts.insert(id, known).is_err() {
                    return Err(AllocError);
                }
            }
            Row::Open(event) => {
                if self.open_ones.insert(event.transfer.id, event).is_err() {
                    return Err(AllocError);
                }
            }
        }
        Ok(())
    }
}

/// The parts of a text of such lines. `None`: a line is none.
pub(crate) fn read_parts(
    alloc: Global,
    key: HashKey,
    text: &[u8],
) -> Result<Option<Parts>, AllocError>
    ensures { IfOk result (λ read. GivesParts text.now read) }
{
    let mut parts = Parts::new(alloc, key);
    let mut rest = text;
    while !rest.is_empty() {
        let Some(read) = read_row(alloc, rest)? else {
            return Ok(None);
        };
        parts.add(read.row)?;
        rest = read.rest;
    }
    Ok(Some(parts))
}
