//! The arguments of the command `consume`.

use crate::arguments::{Argument, with_arguments};
use crate::command_line::OptionsFault;
use crate::follow_options::{asked_binding, asked_busy, asked_every, joined};
use crate::help;
use crate::parsing::{asked_file, bad_value, json_flag, usage_error};
use cdc_follow::Rules;
use cdc_match::Binding;
use cdc_message::decimal_up_to;
use clap::{ArgMatches, Command};
use std::alloc::{AllocError, Global};

/// The bytes that the name of a queue or of a virtual host has, at most.
const NAME_BYTES: usize = 255;

/// The bytes that the name of a user has, at most.
const USER_BYTES: usize = 65_535;

/// How many deliveries may be unacknowledged, if no number is given.
const DEFAULT_PREFETCH: u16 = 1000;

/// How many seconds lie between heartbeats, if no number is given.
const DEFAULT_HEARTBEAT: u16 = 30;

/// How a queue is consumed.
#[derive(Drop)]
pub struct ConsumePlan<'a> {
    /// The name of the queue.
    pub queue: &'a str,
    /// The virtual host.
    pub host: &'a str,
    /// The name of the user.
    pub user: &'a str,
    /// The file of the user's password; `None`: the environment has it.
    pub password_file: Option<&'a str>,
    pub rules: Rules,
    /// Which events are applied.
    pub binding: Binding,
    /// The binding's text, with a space between its parts.
    pub binding_text: Vec<u8>,
    /// The file of the book.
    pub book: &'a str,
    /// For how many seconds, at most, a save waits for a program that reads the book.
    pub busy: u64,
    /// How many deliveries are taken, at most, before the book is saved.
    pub every: u64,
    /// After how many deliveries consuming ends.
    pub limit: u64,
    /// Whether a message that is no event is rejected, and consuming goes on.
    pub parks: bool,
    /// How many deliveries may be unacknowledged.
    pub prefetch: u16,
    /// How many seconds lie between heartbeats; 0 for none.
    pub heartbeat: u16,
    /// The file of the report, if one is wanted.
    pub report: Option<&'a str>,
}

pub fn consume_arguments<'a>(alloc: Global) -> Result<Command<'a>, AllocError> {
    let command = Command::new(alloc, "consume")
        .about(
            "Consume a RabbitMQ queue over standard input and output, and acknowledge what is saved",
        )
        .after_help(help::CONSUME);
    with_arguments(
        alloc,
        command,
        &[
            Argument::option("queue", "QUEUE", "Consume this queue, which has to exist"),
            Argument::option(
                "book",
                "BOOK",
                "Save the book in this file, or sqlite:FILE, and resume from it",
            ),
            Argument::flag(
                "chained",
                "Apply an event only if it follows the last one of its queue, by its header or member previous",
            ),
            Argument::flag(
                "park",
                "Reject a message that is no event, for a dead-letter exchange, and go on after it",
            ),
            Argument::option(
                "binding",
                "BINDING",
                "Apply only the events that match this binding, such as 'all ledger=700'",
            )
            .or("all"),
            Argument::option("vhost", "VHOST", "Use this virtual host").or("/"),
            Argument::option("user", "USER", "Log in as this user").or("guest"),
            Argument::option(
                "password-file",
                "FILE",
                "Read the password from this file, up to its first line feed [default: RELAYPLUM_PASSWORD]",
            ),
            Argument::option(
                "prefetch",
                "N",
                "Have at most N unacknowledged deliveries [1-65535; default: 1000]",
            ),
            Argument::option(
                "heartbeat",
                "SECONDS",
                "Negotiate heartbeats of so many seconds, 0 for none [0-65535; default: 30]",
            ),
            Argument::option(
                "every",
                "N",
                "Save the book after N deliveries at the latest [1-18446744073709551615; default: 1000]",
            ),
            Argument::option(
                "busy",
                "SECONDS",
                "Wait so long for a program that reads the SQLite book [0-86400; default: 30]",
            ),
            Argument::option(
                "limit",
                "N",
                "End after N deliveries [1-18446744073709551615; default: never]",
            ),
            Argument::option(
                "report",
                "REPORT",
                "Keep the status, the counts and the place in this file",
            ),
            json_flag(),
        ],
    )
}

/// The plan that the arguments ask for, or a usage error.
pub fn consume_plan<'a>(
    alloc: Global,
    arguments: &ArgMatches<'a>,
) -> Result<ConsumePlan<'a>, OptionsFault> {
    let word = arguments.get_str("binding").unwrap_or("all");
    let parts: Vec<&str> = word.split_ascii_whitespace().collect(alloc)?;
    Ok(ConsumePlan {
        queue: asked_queue(alloc, arguments)?,
        host: asked_host(alloc, arguments)?,
        user: asked_user(alloc, arguments)?,
        password_file: arguments.get_str("password-file"),
        rules: Rules {
            chained: arguments.get_flag("chained"),
            skips_gaps: false,
        },
        binding: asked_binding(alloc, "binding", word, parts.as_slice())?,
        binding_text: joined(alloc, parts.as_slice())?,
        book: asked_book(alloc, arguments)?,
        busy: asked_busy(alloc, arguments)?,
        every: asked_every(alloc, arguments)?,
        limit: asked_limit(alloc, arguments)?,
        parks: arguments.get_flag("park"),
        prefetch: asked_prefetch(alloc, arguments)?,
        heartbeat: asked_heartbeat(alloc, arguments)?,
        report: arguments.get_str("report"),
    })
}

/// The name of the queue.
fn asked_queue<'a>(alloc: Global, arguments: &ArgMatches<'a>) -> Result<&'a str, OptionsFault> {
    match arguments.get_str("queue") {
        Some(name) if !name.is_empty() && name.len() <= NAME_BYTES => Ok(name),
        Some(name) => Err(bad_value(
            alloc,
            "queue",
            name,
            "the name of a queue, of 1 to 255 bytes",
        )?),
        None => Err(usage_error(
            alloc,
            "error: no queue is named: --queue QUEUE names one\n\nFor more information, try '--help'.\n",
        )?),
    }
}

/// The book, which has to be named: what is acknowledged is what it has.
fn asked_book<'a>(alloc: Global, arguments: &ArgMatches<'a>) -> Result<&'a str, OptionsFault> {
    match asked_file(alloc, arguments, "book")? {
        Some(name) => Ok(name),
        None => Err(usage_error(
            alloc,
            "error: no book is named: --book BOOK names one\n\nFor more information, try '--help'.\n",
        )?),
    }
}

/// The virtual host.
fn asked_host<'a>(alloc: Global, arguments: &ArgMatches<'a>) -> Result<&'a str, OptionsFault> {
    match arguments.get_str("vhost") {
        None => Ok("/"),
        Some(name) if name.len() <= NAME_BYTES => Ok(name),
        Some(name) => Err(bad_value(
            alloc,
            "vhost",
            name,
            "the name of a virtual host, of at most 255 bytes",
        )?),
    }
}

/// The user.
fn asked_user<'a>(alloc: Global, arguments: &ArgMatches<'a>) -> Result<&'a str, OptionsFault> {
    match arguments.get_str("user") {
        None => Ok("guest"),
        Some(name) if name.len() <= USER_BYTES => Ok(name),
        Some(name) => Err(bad_value(
            alloc,
            "user",
            name,
            "the name of a user, of at most 65535 bytes",
        )?),
    }
}

/// After how many deliveries consuming ends.
fn asked_limit(alloc: Global, arguments: &ArgMatches<'_>) -> Result<u64, OptionsFault> {
    let Some(word) = arguments.get_str("limit") else {
        return Ok(u64::MAX);
    };
    match decimal_up_to(word.as_bytes(), u128::from(u64::MAX)) {
        Some(number) if number != 0 => Ok(number as u64),
        _ => Err(bad_value(
            alloc,
            "limit",
            word,
            "a number from 1 to 18446744073709551615",
        )?),
    }
}

/// How many deliveries may be unacknowledged.
fn asked_prefetch(alloc: Global, arguments: &ArgMatches<'_>) -> Result<u16, OptionsFault> {
    let Some(word) = arguments.get_str("prefetch") else {
        return Ok(DEFAULT_PREFETCH);
    };
    match decimal_up_to(word.as_bytes(), u128::from(u16::MAX)) {
        Some(number) if number != 0 => Ok(number as u16),
        _ => Err(bad_value(alloc, "prefetch", word, "a number from 1 to 65535")?),
    }
}

/// How many seconds lie between heartbeats.
fn asked_heartbeat(alloc: Global, arguments: &ArgMatches<'_>) -> Result<u16, OptionsFault> {
    let Some(word) = arguments.get_str("heartbeat") else {
        return Ok(DEFAULT_HEARTBEAT);
    };
    match decimal_up_to(word.as_bytes(), u128::from(u16::MAX)) {
        Some(number) => Ok(number as u16),
        None => Err(bad_value(alloc, "heartbeat", word, "a number from 0 to 65535")?),
    }
}
