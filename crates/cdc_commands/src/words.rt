//! Words of files, and how they are shown.

ghost use Rattle.std.specs.Prelude.{◌≡◌, ◌++◌, ◌∷◌, [], IfOk, OnOk, map, string_bytes, take};
ghost use Rattle.cdc_commands.specs.FaultWords as spec;
ghost use Rattle.cdc_commands.specs.ShownWords as shown;

use cdc_script::{ScriptFault, Span};
use std::alloc::{AllocError, Global};
use std::str;

/// How many bytes of a word of a file are shown.
const MOST_SHOWN: usize = 60;

/// The bytes at a location in a file; fewer if the file ends before.
pub fn bytes_at(file: &[u8], span: Span) -> &[u8]
    ensures { result.now ≡ spec.bytes_at file.now span }
{
    let after = file.get(span.start as usize..).unwrap_or(&[]);
    prefix(after, span.length as usize)
}

/// The first bytes of some, this many at most.
fn prefix(bytes: &[u8], most: usize) -> &[u8]
    ensures { result.now ≡ take most bytes.now }
{
    bytes.get(..most).unwrap_or(bytes)
}

/// A byte as it is shown: a question mark if it isn't printable ASCII.
fn shown_byte(byte: u8) -> u8
    ensures { result ≡ shown.shown_byte byte }
{
    if is_printable(byte) { byte } else { b'?' }
}

fn is_printable(byte: u8) -> bool
    ensures { result ≡ shown.is_printable byte }
{
    matches!(byte, b' '..=b'~')
}

/// Adds a byte of a file, as it is shown.
fn push_byte(text: &mut String, byte: u8) -> Result<(), AllocError>
    ensures { OnOk result (string_bytes text.new ≡ string_bytes text.old ++ shown.shown_byte byte ∷ []) }
{
    let shown = [shown_byte(byte)];
    match str::from_utf8(&shown) {
        Ok(text_of) => text.push_str(text_of),
        Err(_) => unreachable!(),
    }
}

/// Adds bytes of a file, each as it is shown.
fn push_shown(text: &mut String, bytes: &[u8]) -> Result<(), AllocError>
    ensures { OnOk result (string_bytes text.new ≡ string_bytes text.old ++ map shown.shown_byte bytes.now) }
{
    for byte in bytes {
        push_byte(text, *byte)?;
    }
    Ok(())
}

/// A word of a file as it is shown: a long one is cut, and two dots follow; a byte that isn't printable ASCII is a
/// question mark.
#[tactic(auto, using(crate::proofs::ShownWords::cut_off))]
pub fn shown_word(alloc: Global, word: &[u8]) -> Result<String, AllocError>
    ensures { IfOk result (λ text. string_bytes text ≡ shown.shown_bytes word.now) }
{
    let mut text = String::new(alloc);
    push_shown(&mut text, prefix(word, MOST_SHOWN))?;
    if word.len() > MOST_SHOWN {
        text.push_str("..")?;
    }
    Ok(text)
}

/// The word in error in a script or a step file of these bytes, as it is shown. It is empty if a word is missing, or
/// if the error is in the file as a whole.
pub fn fault_word(alloc: Global, file: &[u8], fault: ScriptFault) -> Result<String, AllocError>
    ensures { IfOk result (λ word. string_bytes word ≡ shown.shown_bytes (spec.bytes_at file.now fault.word)) }
{
    shown_word(alloc, bytes_at(file, fault.word))
}
