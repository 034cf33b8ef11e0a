//! Chaining a reader: its lines one after another, up to what contradicts the end, a line that is no entry, or the end.

ghost use Rattle.std.specs.Prelude.{◌≡◌, ◌≢◌, Some, Err, IfOk, IfSome, length, string_bytes};
ghost use Rattle.cdc_chain.specs.Chains.{stop_by as why_it_stops, stops_at as stops_chain};
ghost use Rattle.cdc_chain.specs.Private.Steps.{LineMakes, StepMakes};

use crate::chain::{Chain, Chaining};
use cdc_follow::{FollowError, LineError, ReadError, read_entry, read_line};
use cdc_match::Binding;
use std::alloc::Global;
use std::io::BufRead;

/// Why chaining stops.
#[derive(Clone, Copy, Debug, PartialEq, Eq)]
pub enum ChainStop {
    /// The reader has no more lines.
    AtEnd,
    /// The line of this number has an event that is later than the last one before the end that was received.
    AfterEnd(u64),
    /// The line of this number is no entry, for this reason.
    BadLine(u64, LineError),
}

// Whether chaining stops at an entry of which this became.
fn stops_at(chaining: Chaining) -> bool
    ensures { result ≡ stops_chain chaining }
{
    match chaining {
        Chaining::AfterEnd | Chaining::OutOfRange => true,
        Chaining::Taken | Chaining::Duplicate | Chaining::Ended => false,
    }
}

// Why chaining stops at the entry of the line of this number, of which this became.
fn stop_by(chaining: Chaining, number: u64) -> ChainStop
    ensures { result ≡ why_it_stops chaining number }
{
    match chaining {
        Chaining::OutOfRange => ChainStop::BadLine(number, LineError::TimestampOutOfRange),
        Chaining::AfterEnd | Chaining::Taken | Chaining::Duplicate | Chaining::Ended => {
            ChainStop::AfterEnd(number)
        }
    }
}

// Stops at the line of this number, which isn't read for this reason.
fn stop_at_line(number: u64, error: LineError) -> Result<Option<ChainStop>, FollowError>
    ensures stops { IfOk result (λ stop.
        (stop ≡ Some (ChainStop.BadLine number error)) × (error ≢ LineError.OutOfMemory)) }
    ensures memory { (why : _) → result ≢ Err (FollowError.Read why) }
{
    match error {
        LineError::OutOfMemory => Err(FollowError::OutOfMemory),
        _ => Ok(Some(ChainStop::BadLine(number, error))),
    }
}

// Chains the line of this number.
fn chain_bytes(
    alloc: Global,
    line: &[u8],
    number: u64,
    bindings: &[Binding],
    chain: &mut Chain,
    text: &mut String,
) -> Result<Option<ChainStop>, FollowError>
    requires { length chain.old.places ≡ length bindings.now }
    ensures makes { IfOk result (λ stop. LineMakes bindings.now number line.now chain.old stop chain.new
        (string_bytes text.old) (string_bytes text.new)) }
    ensures many { length chain.new.places ≡ length chain.old.places }
    ensures memory { (why : _) → result ≢ Err (FollowError.Read why) }
{
    let entry = match read_entry(alloc, line, false) {
        Ok(Some(entry)) => entry,
        Ok(None) => return Ok(None),
        Err(error) => return stop_at_line(number, error),
    };
    let chaining = chain.take(alloc, bindings, &entry.content, text)?;
    if stops_at(chaining) {
        return Ok(Some(stop_by(chaining, number)));
    }
    Ok(None)
}

/// Reads the line of this number into the buffer, chains it, and adds the lines that it makes. `None`: the lines after
/// it are to be chained too. If the reader fails, nothing changes. If memory runs out, a part of the lines may be
/// added, and the chain is of no further use.
pub fn chain_line<B: BufRead>(
    alloc: Global,
    reader: &mut B,
    line: &mut Vec<u8>,
    number: u64,
    bindings: &[Binding],
    chain: &mut Chain,
    text: &mut String,
) -> Result<Option<ChainStop>, FollowError>
    requires { length chain.old.places ≡ length bindings.now }
    ensures makes { IfOk result (λ stop. IfSome (B.remaining reader.old) (λ bytes. StepMakes bindings.now number
        chain.old bytes stop chain.new (B.remaining reader.new) (string_bytes text.old) (string_bytes text.new))) }
    ensures many { length chain.new.places ≡ length chain.old.places }
    ensures read { (why : _) → result ≡ Err (FollowError.Read why)
        → (chain.new ≡ chain.old) × (string_bytes text.new ≡ string_bytes text.old) }
{
    match read_line(reader, line) {
        Ok(true) => chain_bytes(alloc, line, number, bindings, chain, text),
        Ok(false) => Ok(Some(ChainStop::AtEnd)),
        Err(ReadError::TooLong) => Ok(Some(ChainStop::BadLine(number, LineError::TooLong))),
        Err(ReadError::Read(error)) => Err(FollowError::Read(error)),
        Err(ReadError::OutOfMemory) => Err(FollowError::OutOfMemory),
    }
}
