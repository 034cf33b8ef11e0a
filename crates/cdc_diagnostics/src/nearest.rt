//! The name that was probably meant by a word.

use std::alloc::{AllocError, Global};
use strsim::osa_distance;

/// Longer words, in bytes, get no suggestion.
const LONGEST: usize = 32;

/// The name nearest to a word, or None if none is near enough. A name is near if the word has it in other cases, if
/// the word has at least three letters and is a prefix of it, or if at most a third of its letters differ. Of several
/// equally near names it is the first.
pub(crate) fn nearest<'a>(
    alloc: Global,
    word: &str,
    names: &[&'a str],
) -> Result<Option<&'a str>, AllocError> {
    if word.is_empty() || word.len() > LONGEST {
        return Ok(None);
    }
    let mut best: Option<(usize, &'a str)> = None;
    for name in names {
        let edits = if word.eq_ignore_ascii_case(name) {
            0
        } else {
            osa_distance(alloc, word, name)?
        };
        let is_nearer = best.is_none_or(|(fewest, _)| edits < fewest);
        if is_nearer && edits <= most_edits(name) {
            best = Some((edits, *name));
        }
    }
    Ok(match best {
        Some((_, name)) => Some(name),
        None => names
            .iter()
            .copied()
            .find(|name| word.len() >= 3 && name.starts_with(word)),
    })
}

/// How many edits may lead from a word to this name.
fn most_edits(name: &str) -> usize {
    (name.len() / 3).max(1)
}
