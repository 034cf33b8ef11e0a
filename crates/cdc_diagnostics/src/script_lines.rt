//! What is wrong with a line of a script.

use crate::faults::FaultText;
use crate::fields::{batch_word, flags_of, item_of, names_of, other_batch_word};
use crate::nearest::nearest;
use crate::numbers::{push_bad_number, push_too_large};
use crate::phrases::{push_comment, push_list, push_meant, push_surplus};
use crate::step_lines::{LINES, STEPS};
use crate::texts::Text;
use cdc_script::{BatchEnd, Detail, ItemKind};
use cdc_types::Limits;
use std::alloc::{AllocError, Global};

/// Adds that no line begins with this word.
pub(crate) fn push_unknown_line(
    alloc: Global,
    text: &mut Text,
    word: &str,
) -> Result<(), AllocError> {
    if word.starts_with('#') {
        push_comment(text);
        return Ok(());
    }
    text.push_name(word);
    if STEPS.contains(&word) {
        text.push(" is a step, and this is read as a script");
    } else if let Some(name) = nearest(alloc, word, &LINES)? {
        push_meant(text, name);
    } else {
        push_list(text, " begins no line of a script; these do: ", &LINES);
    }
    Ok(())
}

/// Adds which word is missing in a line, or is one too many.
pub(crate) fn push_line_count(text: &mut Text, words: FaultText<'_>) {
    let FaultText { first, word } = words;
    let wanted = match first {
        "account" => "`account` has one field or more, as `id=1`",
        "transfer" => "`transfer` has one field or more, as `id=1`",
        "client" => "`client` has one number, from 1 to 4",
        "pulse" => "`pulse` has one number, its timestamp in nanoseconds",
        _ => "a batch has one number behind its first word, its timestamp in nanoseconds",
    };
    if word.is_empty() {
        text.push("nothing stands behind ");
        text.push_name(first);
        text.push(": ");
        text.push(wanted);
    } else {
        push_surplus(text, word, wanted);
    }
}

/// Adds why a word isn't a number, or has none after its `=`.
pub(crate) fn push_bad_line_number(text: &mut Text, words: FaultText<'_>) {
    let FaultText { first, word } = words;
    let Some(item) = item_of(first) else {
        push_bad_number(text, first, word, &[]);
        return;
    };
    let (key, value) = parted(word);
    let flags = if key == "flags" { flags_of(item) } else { &[] };
    push_bad_number(text, key, value, flags);
}

pub(crate) fn push_large_line_number(text: &mut Text, words: FaultText<'_>) {
    let FaultText { first, word } = words;
    let Some(item) = item_of(first) else {
        push_too_large(text, first, word, u64::MAX.into());
        return;
    };
    let (key, value) = parted(word);
    let greatest = match item.key_named(key.as_bytes()) {
        Some(named) => named.greatest(),
        None => u128::MAX,
    };
    push_too_large(text, key, value, greatest);
}

/// Adds why a word gives no field of a request.
pub(crate) fn push_unknown_field(
    alloc: Global,
    text: &mut Text,
    words: FaultText<'_>,
) -> Result<(), AllocError> {
    let FaultText { first, word } = words;
    let item = item_of(first).unwrap_or(ItemKind::Transfer);
    match word.split_once('=') {
        Some((key, _)) => push_unknown_key(alloc, text, item, key),
        None => push_no_field(alloc, text, item, word),
    }
}

/// Adds which key was meant, or which there are.
fn push_unknown_key(
    alloc: Global,
    text: &mut Text,
    item: ItemKind,
    key: &str,
) -> Result<(), AllocError> {
    if key.is_empty() {
        text.push("no key stands in front of `=`; a field is one word, as `id=1`");
        return Ok(());
    }
    if key.starts_with('#') {
        push_comment(text);
        return Ok(());
    }
    let names = names_of(alloc, item)?;
    text.push_name(key);
    if ItemKind::Transfer.key_named(key.as_bytes()).is_some() {
        text.push(" is a field of transfers alone");
    } else if let Some(name) = nearest(alloc, key, names.as_slice())? {
        push_meant(text, name);
    } else {
        text.push(" is no field of ");
        push_list(text, kind_text(item), names.as_slice());
    }
    Ok(())
}

/// The words before the list of a request's fields.
fn kind_text(item: ItemKind) -> &'static str {
    match item {
        ItemKind::Account => "an account; these are ",
        ItemKind::Transfer => "a transfer; these are ",
    }
}

/// Adds what a word without `=` may have been meant as.
fn push_no_field(
    alloc: Global,
    text: &mut Text,
    item: ItemKind,
    word: &str,
) -> Result<(), AllocError> {
    if word.starts_with('#') {
        push_comment(text);
        return Ok(());
    }
    let names = names_of(alloc, item)?;
    text.push_name(word);
    let named = flags_of(item)
        .iter()
        .find(|flag| flag.name == word || flag.short == word);
    if let Some(flag) = named {
        text.push(" is a flag, which is given by its number: `flags=");
        text.push_number(flag.number.into());
        text.push("`");
        return Ok(());
    }
    let name = nearest(alloc, word, names.as_slice())?.unwrap_or("id");
    text.push(" has no `=`; a field is one word, a key and a number, as `");
    text.push(name);
    text.push("=1`");
    Ok(())
}

/// Adds that this earlier word gives the key of a word already.
pub(crate) fn push_key_twice(text: &mut Text, word: &str, giver: &str) {
    let (key, _) = parted(word);
    text.push_name(key);
    text.push(" is given already, by ");
    text.push_name(giver);
}

/// Adds why no batch takes the request whose line begins with this word.
pub(crate) fn push_no_batch(text: &mut Text, word: &str, detail: Detail) {
    text.push_name(word);
    text.push(" stands in no batch");
    match detail {
        Detail::BatchBegan(line) => {
            let first = other_batch_word(word);
            push_batch_line(text, line, first, ", began one of the other kind");
        }
        Detail::BatchEnded(line, end) => {
            push_batch_line(text, line, end_word(end), ", ended the one before");
        }
        _ => {}
    }
    text.push("; a line `");
    text.push(batch_word(word));
    text.push(" NOW` begins one");
}

/// Adds what the line of this number, which begins with this word, did.
fn push_batch_line(text: &mut Text, line: u32, first: &str, did: &str) {
    text.push(" of its kind: line ");
    text.push_number(line.into());
    text.push(", ");
    text.push(first);
    text.push(did);
}

/// The first word of a line that ended a batch.
fn end_word(end: BatchEnd) -> &'static str {
    match end {
        BatchEnd::Subscriber => "subscriber",
        BatchEnd::Client => "client",
        BatchEnd::Pulse => "pulse",
    }
}

/// Adds the limit of subscribers.
pub(crate) fn push_many_subscribers(text: &mut Text) {
    text.push("this is a line `subscriber` too many: a script has ");
    text.push_number(Limits::SUBSCRIBERS as u128);
    text.push(" at most");
}

/// Adds which client numbers there are.
pub(crate) fn push_bad_client(text: &mut Text, word: &str) {
    text.push_name(word);
    text.push(" is no client's number, which is 1 to ");
    text.push_number(Limits::CLIENTS.into());
}

/// The parts of a word before and after its first `=`. The second is empty if there is none.
fn parted(word: &str) -> (&str, &str) {
    word.split_once('=').unwrap_or((word, ""))
}
