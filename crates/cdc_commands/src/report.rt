//! Lines of text for a batch, for a subscriber and its book, and for the fault of a file.

ghost use Rattle.std.specs.Prelude.{◌≡◌, ◌++◌, codes, Err, OnOk, string_bytes};
ghost use Rattle.std.specs.List.{flat_map};
ghost use Rattle.cdc_types.specs.Results.{account_number, transfer_number};
ghost use Rattle.cdc_script.specs.Faults.{kind_name};
ghost use Rattle.cdc_codec.specs.Texts.{spaced};
ghost use Rattle.cdc_subscriber.specs.Lines.{subscriber_text};
ghost use Rattle.cdc_commands.specs.Private.Takers.{kept_text};
ghost use Rattle.cdc_commands.specs.Report.{answer_text, answered_lines, batch_line, file_fault_line};

use crate::batches::Answered;
use crate::endings::Ending;
use cdc_ledger::BatchError;
use cdc_script::ScriptFault;
use cdc_subscriber::Subscriber;
use cdc_types::{AccountResult, BatchResults, TransferResult};
use itoa::{Buffer, Integer};
use std::alloc::AllocError;

/// Adds a number in decimal digits.
pub fn push_number<I: Integer>(text: &mut String, number: I) -> Result<(), AllocError>
    ensures { OnOk result (string_bytes text.new ≡ string_bytes text.old ++ I.text number) }
{
    let mut buffer = Buffer::new();
    text.push_str(buffer.format(number))
}

/// Adds a space and a number.
pub fn push_spaced<I: Integer>(text: &mut String, number: I) -> Result<(), AllocError>
    ensures { OnOk result (string_bytes text.new ≡
        string_bytes text.old ++ (codes " " ++ I.text number)) }
{
    text.push_str(" ")?;
    push_number(text, number)
}

/// Adds one line for each batch.
pub fn push_answers(text: &mut String, answers: &[Answered]) -> Result<(), AllocError>
    ensures { OnOk result (string_bytes text.new ≡
        string_bytes text.old ++ answered_lines answers.now) }
{
    for answered in answers {
        push_batch(text, answered.number, &answered.answer)?;
    }
    Ok(())
}

/// Adds the line of a batch: its number, from 1, and the ledger's answer.
pub fn push_batch(
    text: &mut String,
    number: u64,
    answer: &Result<BatchResults, BatchError>,
) -> Result<(), AllocError>
    ensures { OnOk result (string_bytes text.new ≡
        string_bytes text.old ++ batch_line number answer.now) }
{
    text.push_str("batch ")?;
    push_number(text, number)?;
    push_answer(text, answer)?;
    text.push_str("\n")
}

/// Adds the ledger's answer to a batch.
fn push_answer(
    text: &mut String,
    answer: &Result<BatchResults, BatchError>,
) -> Result<(), AllocError>
    ensures { OnOk result (string_bytes text.new ≡
        string_bytes text.old ++ answer_text answer.now) }
{
    match answer {
        Ok(BatchResults::Accounts(results)) => push_account_results(text, results.as_slice()),
        Ok(BatchResults::Transfers(results)) => push_transfer_results(text, results.as_slice()),
        Ok(BatchResults::Pulsed(count)) => {
            text.push_str(": pulse ")?;
            push_number(text, *count)
        }
        Err(refusal) => push_refusal(text, *refusal),
    }
}

/// Adds a space and a number for each requested account.
fn push_account_results(text: &mut String, results: &[AccountResult]) -> Result<(), AllocError>
    ensures { OnOk result (string_bytes text.new ≡
        string_bytes text.old ++
        (codes ":" ++ flat_map (λ r. spaced (account_number r)) results.now)) }
{
    text.push_str(":")?;
    for result in results {
        push_spaced(text, result.number())?;
    }
    Ok(())
}

/// Adds a space and a number for each requested transfer.
fn push_transfer_results(text: &mut String, results: &[TransferResult]) -> Result<(), AllocError>
    ensures { OnOk result (string_bytes text.new ≡
        string_bytes text.old ++
        (codes ":" ++ flat_map (λ r. spaced (transfer_number r)) results.now)) }
{
    text.push_str(":")?;
    for result in results {
        push_spaced(text, result.number())?;
    }
    Ok(())
}

/// Adds the reason why a whole batch was refused.
fn push_refusal(text: &mut String, refusal: BatchError) -> Result<(), AllocError>
    ensures { OnOk result (string_bytes text.new ≡
        string_bytes text.old ++ answer_text (Err refusal)) }
{
    text.push_str(" refused:")?;
    push_spaced(text, refusal.number())?;
    text.push_str(" ")?;
    text.push_str(refusal.name())
}

/// Adds the lines of subscribers, which are numbered from 1.
pub fn push_subscribers(text: &mut Vec<u8>, subscribers: &[Subscriber]) -> Result<(), AllocError>
    ensures { OnOk result (text.new.items ≡ text.old.items ++ kept_text 1 subscribers.now) }
{
    for place in 0..subscribers.len() {
        print_subscriber(text, &subscribers[place], place as u64 + 1)?;
    }
    Ok(())
}

/// Adds the line of a subscriber, and one for each account of its book.
pub fn print_subscriber(
    text: &mut Vec<u8>,
    subscriber: &Subscriber,
    number: u64,
) -> Result<(), AllocError>
    ensures { OnOk result (text.new.items ≡
        text.old.items ++ subscriber_text number subscriber.now) }
{
    subscriber.print(text, number).map_err(|_| AllocError)
}

/// Adds the line for the fault of a file; nothing if the command ends otherwise.
pub fn push_file_fault(text: &mut String, ending: Ending) -> Result<(), AllocError>
    ensures { OnOk result (string_bytes text.new ≡
        string_bytes text.old ++ file_fault_line ending) }
{
    match ending {
        Ending::BadScript(fault) => push_fault(text, "fault: script line", fault),
        Ending::BadSteps(fault) => push_fault(text, "fault: steps line", fault),
        _ => Ok(()),
    }
}

/// Adds the line for the fault of a file. `words` precede the number of the faulty line.
fn push_fault(text: &mut String, words: &str, fault: ScriptFault) -> Result<(), AllocError>
    ensures { OnOk result (string_bytes text.new ≡ string_bytes text.old
        ++ (words.now ++ (spaced fault.line
        ++ (codes ": " ++ (kind_name fault.kind ++ codes "\n"))))) }
{
    text.push_str(words)?;
    push_spaced(text, fault.line)?;
    text.push_str(": ")?;
    push_line_end(text, fault.kind.name())?;
    Ok(())
}

/// Adds the last word of a line, and its line feed.
pub fn push_line_end(text: &mut String, word: &str) -> Result<(), AllocError>
    ensures { OnOk result (string_bytes text.new ≡
        string_bytes text.old ++ (word.now ++ codes "\n")) }
{
    text.push_str(word)?;
    text.push_str("\n")
}
