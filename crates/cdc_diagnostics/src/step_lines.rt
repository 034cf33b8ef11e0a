//! What is wrong with a line of a step file.

use crate::faults::FaultText;
use crate::nearest::nearest;
use crate::numbers::{push_bad_number, push_too_large};
use crate::phrases::{push_comment, push_list, push_meant, push_surplus};
use crate::texts::Text;
use cdc_types::Limits;
use std::alloc::{AllocError, Global};

/// The first words of steps.
pub(crate) const STEPS: [&str; 15] = [
    "batch",
    "close_ledger",
    "start",
    "crash",
    "poll",
    "publish",
    "arrive",
    "answer",
    "save",
    "send",
    "rewind",
    "break",
    "take",
    "ack",
    "close",
];

/// The first words of the lines of a script.
pub(crate) const LINES: [&str; 7] = [
    "subscriber",
    "client",
    "accounts",
    "account",
    "transfers",
    "transfer",
    "pulse",
];

/// Adds that no step begins with this word.
pub(crate) fn push_unknown_step(
    alloc: Global,
    text: &mut Text,
    word: &str,
) -> Result<(), AllocError> {
    if word.starts_with('#') {
        push_comment(text);
        return Ok(());
    }
    text.push_name(word);
    if LINES.contains(&word) {
        text.push(" begins a line of a script, and this is read as a step file");
    } else if let Some(name) = nearest(alloc, word, &STEPS)? {
        push_meant(text, name);
    } else {
        push_list(text, " is no step; these are ", &STEPS);
    }
    Ok(())
}

/// Adds which number is missing in the line of a step, or which word is one too many.
pub(crate) fn push_step_count(text: &mut Text, words: FaultText<'_>) {
    let FaultText { first, word } = words;
    let wanted = match first {
        "start" => "`start` stands alone, or with a timestamp as in `start at 2000`",
        "ack" => "`ack` has two numbers, of a subscriber and of its acknowledgement",
        "arrive" => "`arrive` has one number, of a packet",
        "answer" => "`answer` has one number, of a confirm",
        "send" | "rewind" | "break" | "take" | "close" => {
            "it has one number, of a subscriber and its queue"
        }
        _ => "nothing stands behind such a step",
    };
    if !word.is_empty() {
        push_surplus(text, word, wanted);
        return;
    }
    if first == "start" {
        text.push("a timestamp is missing behind `at`: ");
    } else {
        text.push("a number is missing behind ");
        text.push_name(first);
        text.push(": ");
    }
    text.push(wanted);
}

pub(crate) fn push_bad_step_number(text: &mut Text, words: FaultText<'_>) {
    push_bad_number(text, words.first, words.word, &[]);
}

pub(crate) fn push_large_step_number(text: &mut Text, words: FaultText<'_>) {
    let (name, greatest) = match words.first {
        "start" => ("start at", u128::from(Limits::TIMESTAMP)),
        first => (first, u128::from(u64::MAX)),
    };
    push_too_large(text, name, words.word, greatest);
}
