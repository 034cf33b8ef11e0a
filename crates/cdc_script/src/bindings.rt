//! The binding of a subscriber line.

ghost use Rattle.std.specs.Prelude.{◌≡◌, List, [], map, find, not, Ok, Err, true, false};
ghost use Rattle.std.specs.Prelude.{IfOk, MatchResult};
ghost use Rattle.std.specs.List.{take_while};
ghost use Rattle.std.specs.Option.{option_map};
ghost use Rattle.std.specs.Result.{is_ok};
ghost use Rattle.cdc_match.specs.Parsing.{arguments_of};
ghost use Rattle.cdc_script.specs.Faults as faults;
ghost use Rattle.cdc_script.specs.Private.Lines.{IsLineFault};
ghost use Rattle.cdc_script.specs.Private.Parts.{seen, words_of};
ghost use Rattle.cdc_script.specs.Private.Suited.{IsNoItem};
ghost use Rattle.cdc_script.specs.Statements as spec;
ghost use Rattle.cdc_script.specs.Statements.{binding_line, binding_of};
ghost use Rattle.cdc_script.specs.Words.{is_clear};

use crate::faults::{Detail, FaultKind, LineError, LineFault, Span};
use crate::parts::Part;
use crate::places::{bad_text, span_of};
use crate::statements::Statement;
use crate::words::{next_word, printable_text};
use cdc_match::{BindError, Binding};
use std::alloc::{AllocError, Global};

/// Reads the binding of a subscriber line. The words to the left of the first unprintable word are validated before
/// that word is reported.
pub fn read_binding(alloc: Global, words: Part<'_>) -> Result<Statement, LineError>
    ensures states { MatchResult result (λ stated. binding_line (words_of words.entry) ≡ Ok stated)
        (λ error. IsLineFault error (binding_line (words_of words.entry))) }
    ensures no_item { IfOk result IsNoItem }
{
    let LeadingWords { texts, bad } = leading_words(alloc, words)?;
    let texts = texts.as_slice();
    match bad {
        None => Ok(Statement::Subscriber(parse_binding(alloc, words, texts)?)),
        Some(bad) if texts.is_empty() => Err(LineError::Fault(bad_text(bad))),
        Some(bad) => {
            parse_binding(alloc, words, texts)?;
            Err(LineError::Fault(bad_text(bad)))
        }
    }
}

/// The binding that the leading printable words represent. `texts` are these words.
fn parse_binding(alloc: Global, words: Part<'_>, texts: &[&str]) -> Result<Binding, LineError>
    requires { map (λ text. text.now) texts.now
        ≡ map (λ word. word.bytes) (take_while is_clear (words_of words)) }
    ensures states { MatchResult result
        (λ binding. binding_of (take_while is_clear (words_of words.entry)) ≡ Ok binding)
        (λ error. IsLineFault error (binding_of (take_while is_clear (words_of words.entry)))) }
{
    match Binding::parse(alloc, texts) {
        Ok(binding) => Ok(binding),
        Err(BindError::OutOfMemory) => Err(LineError::OutOfMemory),
        Err(why) => {
            let word = refused_word(alloc, words)?;
            Err(LineError::Fault(LineFault {
                word,
                kind: FaultKind::BadBinding,
                detail: Detail::NoBinding(why),
            }))
        }
    }
}

/// The word at fault if the leading printable words aren't a binding. `None` if there is no such word.
fn refused_word(alloc: Global, words: Part<'_>) -> Result<Option<Span>, AllocError>
    ensures { IfOk result (λ word. word ≡ option_map faults.span_of
        (spec.refused_word [] (take_while is_clear (words_of words.entry)))) }
{
    let mut texts = Vec::new(alloc);
    let mut rest = words;
    while let Some((word, after)) = next_word(rest) {
        let Some(text) = printable_text(word.bytes) else {
            return Ok(None);
        };
        texts.push(text)?;
        let is_good = is_binding(alloc, texts.as_slice())?;
        if !is_good {
            return Ok(Some(span_of(word)));
        }
        rest = after;
    }
    Ok(None)
}

/// Whether the texts are a binding.
fn is_binding(alloc: Global, texts: &[&str]) -> Result<bool, AllocError>
    ensures { IfOk result (λ b. b ≡ is_ok (arguments_of (map (λ text. text.now) texts.now))) }
{
    match Binding::parse(alloc, texts) {
        Ok(_) => Ok(true),
        Err(BindError::OutOfMemory) => Err(AllocError),
        Err(_) => Ok(false),
    }
}

/// The leading printable words, and the word after them.
#[derive(Drop)]
struct LeadingWords<'a> {
    texts: Vec<&'a str>,
    /// The word after them, which isn't printable. `None` if all words are printable.
    bad: Option<Part<'a>>,
}

/// Splits the words at the first one that isn't printable.
fn leading_words<'a>(alloc: Global, words: Part<'a>) -> Result<LeadingWords<'a>, AllocError>
    ensures texts { IfOk result (λ leading. map (λ text. text.now) leading.texts.items
        ≡ map (λ word. word.bytes) (take_while is_clear (words_of words.entry))) }
    ensures bad { IfOk result (λ leading. option_map seen leading.bad
        ≡ find (λ word. not (is_clear word)) (words_of words.entry)) }
{
    let mut texts = Vec::new(alloc);
    let mut rest = words;
    while let Some((word, after)) = next_word(rest) {
        let Some(text) = printable_text(word.bytes) else {
            return Ok(LeadingWords {
                texts,
                bad: Some(word),
            });
        };
        texts.push(text)?;
        rest = after;
    }
    Ok(LeadingWords { texts, bad: None })
}
