//! The arguments of the command `audit`.

use crate::arguments::{Argument, with_arguments};
use crate::command_line::OptionsFault;
use crate::follow_options::{asked_every, stream_argument};
use crate::help;
use crate::parsing::{asked_file, json_flag};
use clap::{ArgMatches, Command};
use std::alloc::{AllocError, Global};

/// How a stream is audited.
#[derive(Drop)]
pub struct AuditPlan<'a> {
    /// Whether the last balances are printed.
    pub shows_book: bool,
    /// Whether it is another ledger's, whose flags may have more bits.
    pub foreign: bool,
    /// Whether events that aren't later than the last accepted one are skipped and counted.
    pub skips_duplicates: bool,
    /// The file of the state; `None` if it isn't kept.
    pub state: Option<&'a str>,
    /// How many lines are audited, at most, before the state is saved.
    pub every: u64,
}

pub fn audit_arguments<'a>(alloc: Global) -> Result<Command<'a>, AllocError> {
    let command = Command::new(alloc, "audit")
        .about("Check whether a stream of messages can be what a ledger published")
        .after_help(help::AUDIT)
        .arg(stream_argument(alloc))?;
    with_arguments(
        alloc,
        command,
        &[
            Argument::flag("book", "Print the last balances of each account"),
            Argument::flag("foreign", "Accept flags that this ledger doesn't have"),
            Argument::flag(
                "duplicates",
                "Skip and count events that aren't later than the last accepted one",
            ),
            Argument::option(
                "state",
                "STATE",
                "Save the state in this file, and resume from it [default: memory]",
            ),
            Argument::option(
                "every",
                "N",
                "Save the state after N lines at the latest [1-18446744073709551615; default: 1000]",
            ),
            json_flag(),
        ],
    )
}

/// The plan that the arguments ask for, or a usage error.
pub fn audit_plan<'a>(
    alloc: Global,
    arguments: &ArgMatches<'a>,
) -> Result<AuditPlan<'a>, OptionsFault> {
    Ok(AuditPlan {
        shows_book: arguments.get_flag("book"),
        foreign: arguments.get_flag("foreign"),
        skips_duplicates: arguments.get_flag("duplicates"),
        state: asked_file(alloc, arguments, "state")?,
        every: asked_every(alloc, arguments)?,
    })
}
