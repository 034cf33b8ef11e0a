//! Sentences that several kinds of diagnostics share.

use crate::texts::Text;

/// Adds that a comment can't follow other words.
pub(crate) fn push_comment(text: &mut Text) {
    text.push("a comment is a line of its own, whose first byte is `#`");
}

/// Adds which name was meant, after the word that was written.
pub(crate) fn push_meant(text: &mut Text, name: &str) {
    text.push(": did you mean ");
    text.push_name(name);
    text.push("?");
}

/// Adds names, separated by commas, after these words.
pub(crate) fn push_list(text: &mut Text, before: &str, names: &[&str]) {
    text.push(before);
    let last = names.len().saturating_sub(1);
    for (place, name) in names.iter().enumerate() {
        if place > 0 {
            text.push(if place == last { " and " } else { ", " });
        }
        text.push(name);
    }
}

/// Adds that this word is one too many, and what is wanted.
pub(crate) fn push_surplus(text: &mut Text, word: &str, wanted: &str) {
    if word.starts_with('#') {
        push_comment(text);
        return;
    }
    text.push_name(word);
    text.push(" is a word too many: ");
    text.push(wanted);
}
