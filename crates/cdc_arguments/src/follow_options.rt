//! The arguments of the command `follow`.

use crate::arguments::{Argument, with_arguments};
use crate::bindings::binding_sentence;
use crate::command_line::OptionsFault;
use crate::help;
use crate::parsing::{STANDARD_INPUT, asked_file, bad_value, json_flag, usage_error};
use cdc_follow::Rules;
use cdc_match::{BindError, Binding};
use cdc_message::decimal_up_to;
use cdc_sql::SchemaName;
use cdc_types::Limits;
use clap::{Arg, ArgAction, ArgMatches, Command};
use std::alloc::{AllocError, Global};

/// How many lines are followed, at most, before the book is saved, if no number is given.
const DEFAULT_EVERY: u64 = 1000;

/// For how many seconds, at most, a program is waited for that reads the book, if no number is given.
const DEFAULT_BUSY: u64 = 30;

/// For how many seconds, at most, one can be waited for: a day.
const MOST_BUSY: u64 = 86_400;

/// What is printed as SQL, instead of the book.
#[derive(Drop)]
pub enum SqlPlan<'a> {
    /// What makes the tables, in the schema of this name.
    Schema {
        name: SchemaName,
        /// Whether the table `events` is one of them.
        keeps_events: bool,
    },
    /// The saves in the tables of that schema.
    Saves {
        name: SchemaName,
        /// The file with the position where they begin.
        position: &'a str,
        /// Whether they add the events that are applied.
        keeps_events: bool,
    },
}

/// How a stream is followed.
#[derive(Drop)]
pub struct FollowPlan<'a> {
    pub rules: Rules,
    /// Which events are applied.
    pub binding: Binding,
    /// The binding's text, with a space between its parts.
    pub binding_text: Vec<u8>,
    /// The timestamp of the event after which a new book begins; `None`: it begins at the first event.
    pub after: Option<u64>,
    /// The file of the book; `None` if it isn't kept.
    pub book: Option<&'a str>,
    /// How many lines are followed, at most, before the book is saved.
    pub every: u64,
    /// For how many seconds, at most, a save waits for a program that reads the book.
    pub busy: u64,
    /// Whether what comes of each line is printed, instead of the book.
    pub expects: bool,
    /// Whether each event is checked against the balances of its two accounts.
    pub checks: bool,
    /// Whether the first event of an account is taken as it is.
    pub baseline: bool,
    /// The file of the checked book from which a new one begins; `None`: it begins with nothing.
    pub from_book: Option<&'a str>,
    /// What is printed as SQL, if that is asked for.
    pub sql: Option<SqlPlan<'a>>,
}

pub fn follow_arguments<'a>(alloc: Global) -> Result<Command<'a>, AllocError> {
    let command = Command::new(alloc, "follow")
        .about("Follow a stream of messages, apply each event once, and print the book")
        .after_help(help::FOLLOW)
        .arg(stream_argument(alloc))?;
    with_arguments(
        alloc,
        command,
        &[
            Argument::flag(
                "chained",
                "Apply an event only if it follows the last one of its queue, by its member previous",
            ),
            Argument::flag(
                "checked",
                "Apply an event only if the balances that it shows follow from the events applied before",
            )
            .without(&["chained", "after", "busy"]),
            Argument::flag(
                "baseline",
                "Take the first event of each account as it is, so that the stream may begin anywhere; needs --checked",
            )
            .with("checked"),
            Argument::option(
                "from-book",
                "FILE",
                "Begin a new book as a copy of the checked book in FILE; needs --checked",
            )
            .with("checked"),
            Argument::flag(
                "skip-gaps",
                "Skip an event that does not follow the last one, and go on; needs --chained or --checked",
            ),
            Argument::option(
                "binding",
                "BINDING",
                "Apply only the events that match this binding, such as 'all ledger=700'",
            )
            .or("all"),
            Argument::option(
                "after",
                "T",
                "Begin a new book after the event with this timestamp, in nanoseconds [1-9223372036854775807]",
            ),
            Argument::option(
                "book",
                "BOOK",
                "Save the book in this file, or sqlite:FILE, and resume from it [default: memory]",
            ),
            Argument::option(
                "every",
                "N",
                "Save the book after N lines at the latest [1-18446744073709551615; default: 1000]",
            ),
            Argument::option(
                "busy",
                "SECONDS",
                "Wait so long for a program that reads the SQLite book [0-86400; default: 30]",
            ),
            Argument::flag(
                "expect",
                "Print the expected result of each line instead of the book, as JSON lines",
            )
            .without(&["book", "every", "busy", "json"]),
            Argument::option(
                "sql",
                "NAME",
                "Print each save as SQL for PostgreSQL, with the tables of schema NAME, instead of the book",
            )
            .with("resume")
            .without(&["book", "busy", "checked", "expect", "json"]),
            Argument::option(
                "resume",
                "FILE",
                "Begin at the position in FILE, as the table book has it; needs --sql",
            )
            .with("sql"),
            Argument::option(
                "sql-schema",
                "NAME",
                "Print the SQL that makes the tables in schema NAME, and read no stream",
            )
            .without(&[
                "book", "every", "busy", "checked", "expect", "json", "sql", "resume",
            ]),
            Argument::flag(
                "events",
                "Keep the events that are applied in a table, too; needs --sql or --sql-schema",
            ),
            json_flag(),
        ],
    )
}

/// The argument FILE, a stream.
pub fn stream_argument<'a>(alloc: Global) -> Arg<'a> {
    Arg::new(alloc, "FILE")
        .action(ArgAction::Set)
        .default_value(STANDARD_INPUT)
        .help("The stream; - is standard input")
}

/// The plan that the arguments ask for, or a usage error.
pub fn follow_plan<'a>(
    alloc: Global,
    arguments: &ArgMatches<'a>,
) -> Result<FollowPlan<'a>, OptionsFault> {
    let rules = Rules {
        chained: arguments.get_flag("chained"),
        skips_gaps: arguments.get_flag("skip-gaps"),
    };
    let checks = arguments.get_flag("checked");
    let book = asked_file(alloc, arguments, "book")?;
    if rules.skips_gaps && !rules.chained && !checks {
        return Err(usage_error(
            alloc,
            "error: --skip-gaps needs --chained or --checked\n\nFor more information, try '--help'.\n",
        )?);
    }
    if checks && book.is_some_and(is_in_sqlite) {
        return Err(usage_error(
            alloc,
            "error: --checked keeps no book in SQLite: name a text file\n\nFor more information, try '--help'.\n",
        )?);
    }
    let sql = asked_sql(alloc, arguments)?;
    if arguments.get_flag("events") && sql.is_none() {
        return Err(usage_error(
            alloc,
            "error: --events needs --sql or --sql-schema\n\nFor more information, try '--help'.\n",
        )?);
    }
    let parts: Vec<&str> = arguments
        .get_str("binding")
        .unwrap_or("all")
        .split_ascii_whitespace()
        .collect(alloc)?;
    Ok(FollowPlan {
        rules,
        binding: asked_binding(
            alloc,
            "binding",
            arguments.get_str("binding").unwrap_or("all"),
            parts.as_slice(),
        )?,
        binding_text: joined(alloc, parts.as_slice())?,
        after: asked_after(alloc, arguments)?,
        book,
        every: asked_every(alloc, arguments)?,
        busy: asked_busy(alloc, arguments)?,
        expects: arguments.get_flag("expect"),
        checks,
        baseline: arguments.get_flag("baseline"),
        from_book: arguments.get_str("from-book"),
        sql,
    })
}

/// What is to be printed as SQL.
fn asked_sql<'a>(
    alloc: Global,
    arguments: &ArgMatches<'a>,
) -> Result<Option<SqlPlan<'a>>, OptionsFault> {
    let keeps_events = arguments.get_flag("events");
    if let Some(word) = arguments.get_str("sql-schema") {
        let name = asked_name(alloc, "sql-schema", word)?;
        return Ok(Some(SqlPlan::Schema { name, keeps_events }));
    }
    match (arguments.get_str("sql"), arguments.get_str("resume")) {
        (Some(word), Some(position)) => {
            let name = asked_name(alloc, "sql", word)?;
            Ok(Some(SqlPlan::Saves {
                name,
                position,
                keeps_events,
            }))
        }
        _ => Ok(None),
    }
}

/// The name of a schema that is the value of the option of this name.
fn asked_name(alloc: Global, option: &str, word: &str) -> Result<SchemaName, OptionsFault> {
    let text = Vec::from_slice(alloc, word.as_bytes())?;
    match SchemaName::new(text) {
        Some(name) => Ok(name),
        None => Err(bad_value(
            alloc,
            option,
            word,
            "the name of a schema: lower-case letters, digits and _, not a digit first",
        )?),
    }
}

/// Whether the book of this name is kept in an SQLite file.
fn is_in_sqlite(name: &str) -> bool {
    name.starts_with("sqlite:")
}

/// The binding that these parts of a word represent, the value of the option of this name.
pub fn asked_binding(
    alloc: Global,
    name: &str,
    word: &str,
    parts: &[&str],
) -> Result<Binding, OptionsFault> {
    match Binding::parse(alloc, parts) {
        Ok(binding) => Ok(binding),
        Err(BindError::OutOfMemory) => Err(OptionsFault::OutOfMemory),
        Err(_) => {
            let sentence = binding_sentence(alloc, parts)?;
            Err(bad_value(alloc, name, word, sentence.as_str())?)
        }
    }
}

/// The parts with a space between them.
pub fn joined(alloc: Global, parts: &[&str]) -> Result<Vec<u8>, AllocError> {
    let mut text = Vec::new(alloc);
    for part in parts {
        if !text.is_empty() {
            text.push(b' ')?;
        }
        text.extend_from_slice(part.as_bytes())?;
    }
    Ok(text)
}

/// After the event of which timestamp a new book begins.
fn asked_after(alloc: Global, arguments: &ArgMatches<'_>) -> Result<Option<u64>, OptionsFault> {
    let Some(word) = arguments.get_str("after") else {
        return Ok(None);
    };
    match decimal_up_to(word.as_bytes(), u128::from(Limits::TIMESTAMP)) {
        Some(number) if number != 0 => Ok(Some(number as u64)),
        _ => Err(bad_value(
            alloc,
            "after",
            word,
            "a timestamp in nanoseconds, from 1 to 9223372036854775807",
        )?),
    }
}

/// After how many lines a book or a state is saved.
pub fn asked_every(alloc: Global, arguments: &ArgMatches<'_>) -> Result<u64, OptionsFault> {
    let Some(word) = arguments.get_str("every") else {
        return Ok(DEFAULT_EVERY);
    };
    match decimal_up_to(word.as_bytes(), u128::from(u64::MAX)) {
        Some(number) if number != 0 => Ok(number as u64),
        _ => Err(bad_value(
            alloc,
            "every",
            word,
            "a number from 1 to 18446744073709551615",
        )?),
    }
}

/// For how many seconds a save waits for a program that reads the book.
pub fn asked_busy(alloc: Global, arguments: &ArgMatches<'_>) -> Result<u64, OptionsFault> {
    let Some(word) = arguments.get_str("busy") else {
        return Ok(DEFAULT_BUSY);
    };
    match decimal_up_to(word.as_bytes(), u128::from(MOST_BUSY)) {
        Some(number) => Ok(number as u64),
        None => Err(bad_value(alloc, "busy", word, "a number from 0 to 86400")?),
    }
}
