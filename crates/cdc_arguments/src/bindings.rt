//! Why an argument is no binding.

use cdc_diagnostics::script_fault_sentence;
use cdc_match::{BindError, Binding};
use cdc_message::is_decimal;
use cdc_script::{Detail, FaultKind, ScriptFault, Span};
use std::alloc::{AllocError, Global};

/// What a binding starts with.
const START: &str = "a binding starts with all or any, as in 'all ledger=700'";

/// Why these words are no binding: the first one in error, what may stand there, and what was probably meant, as for a
/// script. Empty if they are one. Fails if it is out of memory.
pub fn binding_sentence(alloc: Global, words: &[&str]) -> Result<String, AllocError> {
    let mut sentence = String::new(alloc);
    match first_error(alloc, words) {
        None => {}
        Some((_, BindError::BadMode)) => sentence.push_str(START)?,
        Some((word, error)) => {
            let found = script_fault_sentence(alloc, word.as_bytes(), fault_of(word, error))?;
            sentence.push_str(found.as_str())?;
            sentence.push_str(limit_of(word, error))?;
        }
    }
    Ok(sentence)
}

/// The first word that these words can't have, and why; an empty word if there are none.
fn first_error<'a>(alloc: Global, words: &[&'a str]) -> Option<(&'a str, BindError)> {
    if words.is_empty() {
        return Some(("", BindError::BadMode));
    }
    for (place, word) in words.iter().enumerate() {
        if let Err(error) = Binding::parse(alloc, &words[..=place]) {
            return Some((word, error));
        }
    }
    None
}

/// The fault of a script that has this word alone in a binding.
fn fault_of(word: &str, error: BindError) -> ScriptFault {
    let length = u32::try_from(word.len()).unwrap_or(u32::MAX);
    ScriptFault {
        line: 1,
        column: 1,
        word: Span { start: 0, length },
        first: Span {
            start: 0,
            length: 0,
        },
        kind: FaultKind::BadBinding,
        detail: Detail::NoBinding(error),
    }
}

/// How large a number may be that a pair has to have, if its value is none.
fn limit_of(word: &str, error: BindError) -> &'static str {
    let (key, value) = word.split_once('=').unwrap_or((word, ""));
    if error != BindError::BadValue || is_decimal(value.as_bytes()) {
        return "";
    }
    match key {
        "event_type" => "",
        "ledger" => ", and up to 4294967295 here",
        _ => ", and up to 65535 here",
    }
}
