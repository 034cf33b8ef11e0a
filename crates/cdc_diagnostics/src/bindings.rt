//! What is wrong with the binding of a subscriber line.

use crate::nearest::nearest;
use crate::numbers::{is_number, push_bad_number, push_too_large};
use crate::phrases::{push_comment, push_list, push_meant};
use crate::texts::Text;
use cdc_match::BindError;
use std::alloc::{AllocError, Global};

/// The keys of a binding's pairs: the names of headers.
const HEADERS: [&str; 5] = [
    "event_type",
    "ledger",
    "transfer_code",
    "debit_account_code",
    "credit_account_code",
];

/// The values of the header `event_type`.
const KINDS: [&str; 5] = [
    "single_phase",
    "two_phase_pending",
    "two_phase_posted",
    "two_phase_voided",
    "two_phase_expired",
];

const MODES: [&str; 2] = ["all", "any"];

/// Adds what is wrong with a binding at this word; the word is empty if none is given.
pub(crate) fn push_bad_binding(
    alloc: Global,
    text: &mut Text,
    word: &str,
    why: BindError,
) -> Result<(), AllocError> {
    if word.is_empty() {
        text.push("no binding stands behind `subscriber`, as in `subscriber all`");
        return Ok(());
    }
    push_error(alloc, text, word, why)
}

/// Adds what is wrong with a binding's first word that can't be read. Fails if it is out of memory.
fn push_error(
    alloc: Global,
    text: &mut Text,
    word: &str,
    error: BindError,
) -> Result<(), AllocError> {
    match error {
        BindError::BadMode => push_bad_mode(alloc, text, word),
        BindError::UnknownKey => push_unknown_key(alloc, text, word),
        BindError::BadValue => push_bad_value(alloc, text, word),
        BindError::TooManyPairs => {
            text.push_name(word);
            text.push(" is an eleventh pair; a binding has ten at most");
            Ok(())
        }
        BindError::OutOfMemory => Err(AllocError),
    }
}

fn push_bad_mode(alloc: Global, text: &mut Text, word: &str) -> Result<(), AllocError> {
    if word.starts_with('#') {
        push_comment(text);
        return Ok(());
    }
    text.push_name(word);
    match nearest(alloc, word, &MODES)? {
        Some(name) => push_meant(text, name),
        None => text.push(": a binding begins with `all` or `any`, as in `subscriber all`"),
    }
    Ok(())
}

fn push_unknown_key(alloc: Global, text: &mut Text, word: &str) -> Result<(), AllocError> {
    if word.starts_with('#') {
        push_comment(text);
        return Ok(());
    }
    let Some((key, _)) = word.split_once('=') else {
        text.push_name(word);
        text.push(" has no `=`; a pair is a header and its value, as `ledger=700`");
        return Ok(());
    };
    text.push_name(key);
    match nearest(alloc, key, &HEADERS)? {
        Some(name) => push_meant(text, name),
        None => push_list(text, " is no header; these are ", &HEADERS),
    }
    Ok(())
}

fn push_bad_value(alloc: Global, text: &mut Text, word: &str) -> Result<(), AllocError> {
    let (key, value) = word.split_once('=').unwrap_or((word, ""));
    if key != "event_type" {
        if is_number(value) {
            push_too_large(text, key, value, greatest_of(key));
        } else {
            push_bad_number(text, key, value, &[]);
        }
        return Ok(());
    }
    text.push_name(value);
    match nearest(alloc, value, &KINDS)? {
        Some(name) => push_meant(text, name),
        None => push_list(text, " is no kind of event; these are ", &KINDS),
    }
    Ok(())
}

/// The greatest value of a header that is a number.
fn greatest_of(key: &str) -> u128 {
    if key == "ledger" {
        u32::MAX.into()
    } else {
        u16::MAX.into()
    }
}
