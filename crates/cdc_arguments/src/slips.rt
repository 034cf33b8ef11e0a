//! What may have been meant by arguments that ask for nothing.

use clap::error::ErrorKind;
use clap::{Command, Error};
use std::alloc::{AllocError, Global};

/// Adds to a usage error what may have been meant: `books` before the name of a file, or, if a flag is another
/// command's, which one's.
pub fn push_tip(
    alloc: Global,
    text: &mut String,
    args: &[&str],
    commands: &[Command<'_>],
    error: &Error,
) -> Result<(), AllocError> {
    match error.kind() {
        ErrorKind::InvalidSubcommand => push_books(text, args),
        ErrorKind::UnknownArgument => push_owners(alloc, text, args, commands),
        ErrorKind::MissingRequiredArgument => push_random(text, args),
        _ => Ok(()),
    }
}

/// If `simulate` has a script and nothing else, adds how it takes random steps.
fn push_random(text: &mut String, args: &[&str]) -> Result<(), AllocError> {
    match args {
        ["simulate", script] => {
            text.push_str("\nFor random steps: 'relayplum simulate ")?;
            text.push_str(script)?;
            text.push_str(" --random 1'.\n")
        }
        _ => Ok(()),
    }
}

/// If the first argument looks like the name of a file, adds that `books` takes it.
fn push_books(text: &mut String, args: &[&str]) -> Result<(), AllocError> {
    let Some(word) = args.first() else {
        return Ok(());
    };
    if !(*word == "-" || word.contains('.') || word.contains('/')) {
        return Ok(());
    }
    text.push_str("\nDid you mean 'relayplum books ")?;
    text.push_str(word)?;
    text.push_str("'?\n")
}

/// For the first flag that the command doesn't have and others have, adds which have it.
fn push_owners(
    alloc: Global,
    text: &mut String,
    args: &[&str],
    commands: &[Command<'_>],
) -> Result<(), AllocError> {
    let Some((command, rest)) = args.split_first() else {
        return Ok(());
    };
    for word in rest {
        let flag = word.split_once('=').map_or(*word, |(flag, _)| flag);
        let Some(name) = flag.strip_prefix("--") else {
            continue;
        };
        let owners = owners_of(alloc, name, commands)?;
        if owners.is_empty() || owners.as_slice().contains(command) {
            continue;
        }
        text.push_str("\n'")?;
        text.push_str(flag)?;
        text.push_str("' is a flag of ")?;
        for (place, owner) in owners.iter().enumerate() {
            text.push_str(if place == 0 { "" } else { " and " })?;
            text.push_str(owner)?;
        }
        return text.push_str(".\n");
    }
    Ok(())
}

/// The names of the commands that have a flag of this name.
fn owners_of<'a>(
    alloc: Global,
    name: &str,
    commands: &[Command<'a>],
) -> Result<Vec<&'a str>, AllocError> {
    let mut owners = Vec::new(alloc);
    for command in commands {
        let has_it = command
            .get_arguments()
            .iter()
            .any(|argument| argument.get_long() == Some(name));
        if has_it {
            owners.push(command.get_name())?;
        }
    }
    Ok(owners)
}
