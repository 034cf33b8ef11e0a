//! The flags of requests, and the names of their fields, as a script names them.

use cdc_script::ItemKind;
use std::alloc::{AllocError, Global};

#[derive(Clone, Copy)]
pub(crate) struct Flag {
    pub name: &'static str,
    /// A short form of the name that diagnostics recognise.
    pub short: &'static str,
    /// Its bit in the number that a script gives.
    pub number: u16,
}

const ACCOUNT_FLAGS: [Flag; 4] = [
    Flag {
        name: "linked",
        short: "linked",
        number: 1,
    },
    Flag {
        name: "debits_must_not_exceed_credits",
        short: "debits_must_not_exceed_credits",
        number: 2,
    },
    Flag {
        name: "credits_must_not_exceed_debits",
        short: "credits_must_not_exceed_debits",
        number: 4,
    },
    Flag {
        name: "history",
        short: "history",
        number: 8,
    },
];

const TRANSFER_FLAGS: [Flag; 4] = [
    Flag {
        name: "linked",
        short: "linked",
        number: 1,
    },
    Flag {
        name: "pending",
        short: "pending",
        number: 2,
    },
    Flag {
        name: "post_pending_transfer",
        short: "post",
        number: 4,
    },
    Flag {
        name: "void_pending_transfer",
        short: "void",
        number: 8,
    },
];

/// The kind of request of a line with this first word. None if the line is no request.
pub(crate) fn item_of(word: &str) -> Option<ItemKind> {
    match word {
        "account" => Some(ItemKind::Account),
        "transfer" => Some(ItemKind::Transfer),
        _ => None,
    }
}

/// The word that begins a batch of requests whose lines begin with this one.
pub(crate) fn batch_word(word: &str) -> &'static str {
    if word == "account" {
        "accounts"
    } else {
        "transfers"
    }
}

/// The word that begins a batch of the other kind.
pub(crate) fn other_batch_word(word: &str) -> &'static str {
    if word == "account" {
        "transfers"
    } else {
        "accounts"
    }
}

pub(crate) fn flags_of(item: ItemKind) -> &'static [Flag] {
    match item {
        ItemKind::Account => &ACCOUNT_FLAGS,
        ItemKind::Transfer => &TRANSFER_FLAGS,
    }
}

pub(crate) fn names_of(alloc: Global, item: ItemKind) -> Result<Vec<&'static str>, AllocError> {
    item.keys().iter().map(|key| key.name()).collect(alloc)
}
