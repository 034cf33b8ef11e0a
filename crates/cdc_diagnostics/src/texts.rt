//! Texts that are built piece by piece.

ghost use Rattle.std.specs.Prelude.{◌≡◌, ◌++◌, ℕ, List, if◌then◌else◌, Err, IfOk, IsFalse, IsTrue, Ok, []};
ghost use Rattle.std.specs.Prelude.{alloc_error, decimal, string_bytes};
ghost use Rattle.cdc_diagnostics.specs.Sentences.{sentence_text};
ghost use Rattle.cdc_diagnostics.specs.Texts.{Holds};
ghost use Rattle.cdc_commands.specs.ShownWords.{shown_bytes};

use crate::sentences::Sentence;
use cdc_commands::shown_word;
use itoa::Buffer;
use std::alloc::{AllocError, Global};

/// A text so far. If memory runs out for a piece, nothing more is added, and `finish` fails. So code that adds to it
/// needn't check each time.
#[derive(Drop)]
pub(crate) struct Text {
    alloc: Global,
    /// Its pieces, up to the one that memory ran out for.
    pieces: String,
    is_out_of_memory: bool,
}

impl Text {
    pub(crate) fn new(alloc: Global) -> Text
        ensures empty { string_bytes result.pieces ≡ [] }
        ensures memory { IsFalse result.is_out_of_memory }
        ensures holds { Holds result [] }
    {
        Text {
            alloc,
            pieces: String::new(alloc),
            is_out_of_memory: false,
        }
    }

    pub(crate) fn push(&mut self, words: &str)
        ensures added { IsFalse self.new.is_out_of_memory
            → string_bytes self.new.pieces ≡ string_bytes self.old.pieces ++ words.now }
        ensures kept { IsTrue self.old.is_out_of_memory → self.new ≡ self.old }
        ensures holds { (bytes : List ℕ) → Holds self.old bytes → Holds self.new (bytes ++ words.now) }
    {
        if self.is_out_of_memory {
            return;
        }
        if self.pieces.push_str(words).is_err() {
            self.is_out_of_memory = true;
        }
    }

    /// Adds a number in decimal digits.
    pub(crate) fn push_number(&mut self, number: u128)
        ensures { (bytes : List ℕ) → Holds self.old bytes
            → Holds self.new (bytes ++ decimal number) }
    {
        let mut buffer = Buffer::new();
        self.push(buffer.format(number));
    }

    /// Adds a name or a word of a file, between grave accents. A long one is cut, and a byte that isn't printable
    /// ASCII is a question mark.
    pub(crate) fn push_name(&mut self, name: &str) {
        self.push("`");
        self.push_bytes(name.as_bytes());
        self.push("`");
    }

    /// Adds a word of a file, without grave accents. A long one is cut.
    pub(crate) fn push_bytes(&mut self, word: &[u8])
        ensures { (bytes : List ℕ) → Holds self.old bytes
            → Holds self.new (bytes ++ shown_bytes word.now) }
    {
        match shown_word(self.alloc, word) {
            Ok(shown) => self.push(shown.as_str()),
            Err(AllocError) => self.abort(),
        }
    }

    /// Adds a sentence.
    pub(crate) fn push_sentence(&mut self, sentence: Sentence)
        ensures { (bytes : List ℕ) → Holds self.old bytes
            → Holds self.new (bytes ++ sentence_text sentence) }
    {
        match sentence {
            Sentence::Plain(words) => self.push(words),
            Sentence::One(a, first, b) => {
                self.push(a);
                self.push_with(first, b);
            }
            Sentence::Two(a, first, b, second, c) => {
                self.push(a);
                self.push_with(first, b);
                self.push_with(second, c);
            }
            Sentence::Three(a, first, b, second, c, third, d) => {
                self.push(a);
                self.push_with(first, b);
                self.push_with(second, c);
                self.push_with(third, d);
            }
            Sentence::Four(a, first, b, second, c, third, d, fourth) => {
                self.push(a);
                self.push_with(first, b);
                self.push_with(second, c);
                self.push_with(third, d);
                self.push_number(fourth);
            }
        }
    }

    /// Adds a number and the words after it.
    fn push_with(&mut self, number: u128, after: &str)
        ensures { (bytes : List ℕ) → Holds self.old bytes
            → Holds self.new (bytes ++ decimal number ++ after.now) }
    {
        self.push_number(number);
        self.push(after);
    }

    /// Makes the text fail, since memory ran out for what was to be added.
    pub(crate) fn abort(&mut self)
        ensures { IsTrue self.new.is_out_of_memory }
    {
        self.is_out_of_memory = true;
    }

    /// The whole text. Fails if memory ran out for a piece.
    pub(crate) fn finish(self) -> Result<String, AllocError>
        ensures whole { result ≡ (if self.is_out_of_memory then Err alloc_error else Ok self.pieces) }
        ensures holds { (bytes : List ℕ) → Holds self bytes
            → IfOk result (λ text. string_bytes text ≡ bytes) }
    {
        let Text {
            alloc: _,
            pieces,
            is_out_of_memory,
        } = self;
        if is_out_of_memory {
            return Err(AllocError);
        }
        Ok(pieces)
    }
}
