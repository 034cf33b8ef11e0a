//! Bindings: parsing and matching.

ghost use Rattle.std.specs.Prelude.{◌≡◌, ◌<◌, IfOk, OnErr, Err, length, map};
ghost use Rattle.cdc_match.specs.Errors.{GivesUnlessMemory};
ghost use Rattle.cdc_match.specs.Found.{FindsPairsUnlessMemory};
ghost use Rattle.cdc_match.specs.Matching as matching;
ghost use Rattle.cdc_match.specs.Parsing as spec;

use crate::errors::BindError;
use crate::keys::pair_of;
use crate::pairs::{Mode, Pair};
use cdc_types::{Headers, Limits};
use std::alloc::{AllocError, Global};
use std::marker::Model;

/// A binding: it decides by their headers which messages go to a queue (AMQP 0-9-1, the headers exchange). Contracts
/// see the mode and the pairs.
#[derive(Drop)]
pub struct Binding {
    mode: Mode,
    pairs: Vec<Pair>,
}

impl Model for Binding {
    ghost use Rattle.cdc_match.specs.Arguments.{Arguments};

    ghost Value = { Arguments };

    ghost view = { λ binding. record { mode = binding.mode; pairs = binding.pairs.items } };
}

// The pairs that the words represent.
fn pairs_of(alloc: Global, words: &[&str]) -> Result<Vec<Pair>, BindError>
    ensures pairs { FindsPairsUnlessMemory result
        (spec.pairs_of (map (λ word. word.now) words.now)) }
    ensures memory { result ≡ Err BindError.OutOfMemory
        → spec.BeginsWithPair (map (λ word. word.now) words.now) }
{
    let mut pairs = Vec::new(alloc);
    for word in words {
        if pairs.len() == Limits::BINDING_PAIRS {
            return Err(BindError::TooManyPairs);
        }
        let pair = pair_of(word)?;
        pairs.push(pair)?;
    }
    Ok(pairs)
}

impl Binding {
    /// The binding that the words represent: `all` or `any`, followed by up to ten words `key=value`, each split at
    /// its first equals sign. The value of the key `event_type` is the name of a kind of event. The value of `ledger`
    /// is a decimal number up to 4294967295. The values of `transfer_code`, `debit_account_code` and
    /// `credit_account_code` are decimal numbers up to 65535. Several pairs may have the same key.
    ///
    /// Returns the first error from the left. It is `OutOfMemory` if memory for a pair runs out before any other
    /// error.
    pub fn parse(alloc: Global, words: &[&str]) -> Result<Binding, BindError>
        ensures binding { GivesUnlessMemory result
            (spec.arguments_of (map (λ word. word.now) words.now)) }
        ensures memory { result ≡ Err BindError.OutOfMemory
            → spec.NeedsMemory (map (λ word. word.now) words.now) }
    {
        let (first, rest) = words.split_first().ok_or(BindError::BadMode)?;
        let mode = Mode::named(first).ok_or(BindError::BadMode)?;
        Ok(Binding {
            mode,
            pairs: pairs_of(alloc, rest)?,
        })
    }

    /// Whether messages with these headers go to the queue. Under `Mode::All` every pair has to equal the header's
    /// value, under `Mode::Any` at least one. Without pairs, all messages match under `Mode::All`, and none under
    /// `Mode::Any`.
    pub fn matches(&self, headers: &Headers) -> bool
        ensures { result ≡ matching.matches self.now headers.now }
    {
        let Binding { mode, pairs } = self;
        mode.pass(pairs, *headers)
    }

    /// Whether all pairs or any of them have to match.
    pub fn mode(&self) -> Mode
        ensures { result ≡ self.now.mode }
    {
        self.mode
    }

    /// The pairs, in the order in which they were given.
    pub fn pairs(&self) -> &[Pair]
        ensures { result.now ≡ self.now.pairs }
    {
        self.pairs.as_slice()
    }

    /// An equal binding in memory of its own. A binding without pairs is copied without allocating.
    pub fn try_copy(&self, alloc: Global) -> Result<Binding, AllocError>
        ensures copy { IfOk result (λ copy. copy ≡ self.now) }
        ensures memory { OnErr result (0 < length self.now.pairs) }
    {
        let Binding { mode, pairs } = self;
        if pairs.is_empty() {
            return Ok(Binding {
                mode: *mode,
                pairs: Vec::new(alloc),
            });
        }
        Ok(Binding {
            mode: *mode,
            pairs: pairs.clone()?,
        })
    }
}
