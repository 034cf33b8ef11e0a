//! Sentences as parts of a page.

ghost use Rattle.std.specs.Prelude.{◌≡◌, ◌++◌, OnOk, decimal};
ghost use Rattle.cdc_diagnostics.specs.Sentences.{sentence_text};

use cdc_diagnostics::Sentence;
use cdc_page_text::{push, push_number};
use std::alloc::AllocError;

/// Adds words with numbers between them. An error means out of memory.
pub fn push_sentence(page: &mut Vec<u8>, sentence: Sentence) -> Result<(), AllocError>
    ensures { OnOk result (page.new.items ≡ page.old.items ++ sentence_text sentence) }
{
    match sentence {
        Sentence::Plain(words) => push(page, words),
        Sentence::One(a, first, b) => {
            push(page, a)?;
            push_with(page, first, b)
        }
        Sentence::Two(a, first, b, second, c) => {
            push(page, a)?;
            push_with(page, first, b)?;
            push_with(page, second, c)
        }
        Sentence::Three(a, first, b, second, c, third, d) => {
            push(page, a)?;
            push_with(page, first, b)?;
            push_with(page, second, c)?;
            push_with(page, third, d)
        }
        Sentence::Four(a, first, b, second, c, third, d, fourth) => {
            push(page, a)?;
            push_with(page, first, b)?;
            push_with(page, second, c)?;
            push_with(page, third, d)?;
            push_number(page, fourth)
        }
    }
}

/// Adds a number and the words after it.
fn push_with(page: &mut Vec<u8>, number: u128, after: &str) -> Result<(), AllocError>
    ensures { OnOk result (page.new.items ≡ page.old.items ++ (decimal number ++ after.now)) }
{
    push_number(page, number)?;
    push(page, after)
}
