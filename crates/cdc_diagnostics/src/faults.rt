//! What is wrong with a script or a step file: a sentence on it.

use crate::bindings::push_bad_binding;
use crate::letters::push_bad_letter;
use crate::requirements::{script_sentence, steps_sentence};
use crate::script_lines::{
    push_bad_client, push_bad_line_number, push_key_twice, push_large_line_number, push_line_count,
    push_many_subscribers, push_no_batch, push_unknown_field, push_unknown_line,
};
use crate::sentences::Sentence;
use crate::step_lines::{
    push_bad_step_number, push_large_step_number, push_step_count, push_unknown_step,
};
use crate::texts::Text;
use cdc_commands::bytes_at;
use cdc_script::{Detail, FaultKind, ScriptFault, Span};
use std::alloc::{AllocError, Global};
use std::str;

/// The words that the diagnostic of a line quotes.
#[derive(Clone, Copy)]
pub(crate) struct FaultText<'a> {
    /// The first word of the line.
    pub first: &'a str,
    /// The word in error; empty if one is missing, or if it isn't printable.
    pub word: &'a str,
}

/// What is wrong with a script of these bytes, and what was expected. Fails if it is out of memory.
pub fn script_fault_sentence(
    alloc: Global,
    script: &[u8],
    fault: ScriptFault,
) -> Result<String, AllocError> {
    let mut text = Text::new(alloc);
    let words = words_of(script, fault);
    match fault.kind {
        FaultKind::BadText => push_bad_letter(&mut text, script, fault.word),
        FaultKind::UnknownWord => push_unknown_line(alloc, &mut text, words.word)?,
        FaultKind::WrongCount => push_line_count(&mut text, words),
        FaultKind::BadNumber => push_bad_line_number(&mut text, words),
        FaultKind::NumberOutOfRange => push_large_line_number(&mut text, words),
        FaultKind::UnknownKey => push_unknown_field(alloc, &mut text, words)?,
        FaultKind::KeyTwice => push_key_twice(&mut text, words.word, giver_of(script, fault)),
        FaultKind::NoOpenBatch => push_no_batch(&mut text, words.word, fault.detail),
        FaultKind::BadBinding => push_no_binding(alloc, &mut text, words.word, fault.detail)?,
        FaultKind::TooManySubscribers => push_many_subscribers(&mut text),
        FaultKind::BadClient => push_bad_client(&mut text, words.word),
        FaultKind::NoSubscriber | FaultKind::TooLong => {
            text.push_sentence(script_sentence(fault.kind));
        }
    }
    text.finish()
}

/// What is wrong with a step file of these bytes, and what was expected. Fails if it is out of memory.
pub fn steps_fault_sentence(
    alloc: Global,
    steps: &[u8],
    fault: ScriptFault,
) -> Result<String, AllocError> {
    let mut text = Text::new(alloc);
    let words = words_of(steps, fault);
    match fault.kind {
        FaultKind::BadText => push_bad_letter(&mut text, steps, fault.word),
        FaultKind::UnknownWord => push_unknown_step(alloc, &mut text, words.word)?,
        FaultKind::WrongCount => push_step_count(&mut text, words),
        FaultKind::BadNumber => push_bad_step_number(&mut text, words),
        FaultKind::NumberOutOfRange => push_large_step_number(&mut text, words),
        _ => text.push_sentence(steps_sentence(fault.kind)),
    }
    text.finish()
}

/// Adds why words are no binding.
fn push_no_binding(
    alloc: Global,
    text: &mut Text,
    word: &str,
    detail: Detail,
) -> Result<(), AllocError> {
    match detail {
        Detail::NoBinding(why) => push_bad_binding(alloc, text, word, why),
        _ => {
            text.push_sentence(script_sentence(FaultKind::BadBinding));
            Ok(())
        }
    }
}

/// The word of the line that gives the key of the word at fault already; empty if none does.
fn giver_of(script: &[u8], fault: ScriptFault) -> &str {
    match fault.detail {
        Detail::GivenBy(word) => text_at(script, word),
        _ => "",
    }
}

fn words_of(file: &[u8], fault: ScriptFault) -> FaultText<'_> {
    FaultText {
        first: text_at(file, fault.first),
        word: text_at(file, fault.word),
    }
}

/// The text at a place of a file; empty if the bytes there aren't UTF-8.
fn text_at(file: &[u8], span: Span) -> &str {
    str::from_utf8(bytes_at(file, span)).unwrap_or("")
}
