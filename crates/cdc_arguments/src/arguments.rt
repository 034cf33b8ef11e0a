//! The flags and options of a command as data.

use clap::{Arg, ArgAction, Command};
use std::alloc::{AllocError, Global};

/// An argument that is given by its name after `--`.
#[derive(Clone, Copy)]
pub struct Argument {
    pub name: &'static str,
    /// How help calls its value. None if it is a flag, which has none.
    pub value: Option<&'static str>,
    /// Whether it may be given several times.
    pub repeats: bool,
    pub help: &'static str,
    /// Its value if it isn't given.
    pub default: Option<&'static str>,
    /// The argument that it needs beside it.
    pub needs: Option<&'static str>,
    /// The arguments that it can't stand beside.
    pub excludes: &'static [&'static str],
}

impl Argument {
    /// A flag, which is given or not.
    pub fn flag(name: &'static str, help: &'static str) -> Argument {
        Argument {
            name,
            value: None,
            repeats: false,
            help,
            default: None,
            needs: None,
            excludes: &[],
        }
    }

    /// An option with a value.
    pub fn option(name: &'static str, value: &'static str, help: &'static str) -> Argument {
        Argument {
            value: Some(value),
            ..Argument::flag(name, help)
        }
    }

    /// The same, and it may be given several times.
    pub fn several(self) -> Argument {
        Argument {
            repeats: true,
            ..self
        }
    }

    /// The same, with the value that it has if it isn't given.
    pub fn or(self, default: &'static str) -> Argument {
        Argument {
            default: Some(default),
            ..self
        }
    }

    /// The same, which is taken only beside the argument of this name.
    pub fn with(self, needed: &'static str) -> Argument {
        Argument {
            needs: Some(needed),
            ..self
        }
    }

    /// The same, which isn't taken beside the arguments of these names.
    pub fn without(self, excluded: &'static [&'static str]) -> Argument {
        Argument {
            excludes: excluded,
            ..self
        }
    }

    /// Its form for clap.
    fn to_arg<'a>(self, alloc: Global) -> Result<Arg<'a>, AllocError> {
        let mut arg = Arg::new(alloc, self.name)
            .long(self.name)
            .action(self.action())
            .help(self.help);
        if let Some(value) = self.value {
            arg = arg.value_name(value);
        }
        if let Some(default) = self.default {
            arg = arg.default_value(default);
        }
        if let Some(needed) = self.needs {
            arg = arg.requires_arg(needed)?;
        }
        for excluded in self.excludes {
            arg = arg.conflicts_with(excluded)?;
        }
        Ok(arg)
    }

    /// What clap does where the argument is given.
    fn action(self) -> ArgAction {
        match self.value {
            None => ArgAction::SetTrue,
            Some(_) if self.repeats => ArgAction::Append,
            Some(_) => ArgAction::Set,
        }
    }
}

/// The command with these arguments after those that it has.
pub fn with_arguments<'a>(
    alloc: Global,
    mut command: Command<'a>,
    arguments: &[Argument],
) -> Result<Command<'a>, AllocError> {
    for argument in arguments {
        command = command.arg(argument.to_arg(alloc)?)?;
    }
    Ok(command)
}
