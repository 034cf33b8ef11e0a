//! The arguments of the command `chain`.

use crate::arguments::{Argument, with_arguments};
use crate::command_line::OptionsFault;
use crate::follow_options::{asked_binding, asked_every, joined, stream_argument};
use crate::help;
use crate::parsing::{asked_file, usage_error};
use cdc_match::Binding;
use clap::{ArgMatches, Command};
use std::alloc::{AllocError, Global};

/// How a stream is chained.
#[derive(Drop)]
pub struct ChainPlan<'a> {
    /// The bindings of the queues, of which the first has the number 1. There is at least one.
    pub bindings: Vec<Binding>,
    /// The text of each, with a space between its parts.
    pub binding_texts: Vec<Vec<u8>>,
    /// The file of the state; `None` if it isn't kept.
    pub state: Option<&'a str>,
    /// How many lines are read, at most, before the state is saved.
    pub every: u64,
}

pub fn chain_arguments<'a>(alloc: Global) -> Result<Command<'a>, AllocError> {
    let command = Command::new(alloc, "chain")
        .about("Put each event of a stream into queues, with the timestamp of the event before it")
        .after_help(help::CHAIN)
        .arg(stream_argument(alloc))?;
    with_arguments(
        alloc,
        command,
        &[
            Argument::option(
                "queue",
                "BINDING",
                "Print the lines of the queue of this binding, such as 'all ledger=700'; may be given again",
            )
            .several(),
            Argument::option(
                "state",
                "STATE",
                "Save the state in this file, and resume from it [default: memory]",
            ),
            Argument::option(
                "every",
                "N",
                "Save the state after N lines at the latest [1-18446744073709551615; default: 1000]",
            ),
        ],
    )
}

/// The plan that the arguments ask for, or a usage error.
pub fn chain_plan<'a>(
    alloc: Global,
    arguments: &ArgMatches<'a>,
) -> Result<ChainPlan<'a>, OptionsFault> {
    let mut plan = ChainPlan {
        bindings: Vec::new(alloc),
        binding_texts: Vec::new(alloc),
        state: asked_file(alloc, arguments, "state")?,
        every: asked_every(alloc, arguments)?,
    };
    if let Some(words) = arguments.get_strs("queue") {
        for word in words {
            add_queue(alloc, &mut plan, word)?;
        }
    }
    if plan.bindings.is_empty() {
        return Err(usage_error(
            alloc,
            "error: no queue is named: --queue BINDING names one\n\nFor more information, try '--help'.\n",
        )?);
    }
    Ok(plan)
}

/// Adds the queue of the binding that this word represents.
fn add_queue(alloc: Global, plan: &mut ChainPlan<'_>, word: &str) -> Result<(), OptionsFault> {
    let parts: Vec<&str> = word.split_ascii_whitespace().collect(alloc)?;
    let binding = asked_binding(alloc, "queue", word, parts.as_slice())?;
    let text = joined(alloc, parts.as_slice())?;
    push_queue(plan, binding, text)?;
    Ok(())
}

/// Adds the queue of this binding, which has this text.
fn push_queue(plan: &mut ChainPlan<'_>, binding: Binding, text: Vec<u8>) -> Result<(), AllocError> {
    plan.bindings.push(binding)?;
    plan.binding_texts.push(text)?;
    Ok(())
}
