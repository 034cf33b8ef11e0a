//! The arguments of the command line.

ghost use Rattle.std.specs.Prelude.{◌≡◌, length, codes, IfOk, IfSome, IsOkAnd};
ghost use Rattle.cdc_types.specs.Windows.{IsWindow};
ghost use Rattle.cdc_arguments.specs.Options.{IsRun, IsWithinLimits};

use crate::arguments::{Argument, with_arguments};
use crate::audit_options::{audit_arguments, audit_plan};
use crate::chain_options::{chain_arguments, chain_plan};
pub use crate::command_line::{Diagnostics, Form, Options, OptionsFault, RunDiagnostics};
use crate::consume_options::{consume_arguments, consume_plan};
use crate::delivery_options::{asked_deliveries, deliveries_option, expect_flag};
use crate::follow_options::{follow_arguments, follow_plan};
use crate::help;
use crate::random_options::{
    asked_chances, faults_option, random_option, steps_option, to_end_flag,
};
use crate::run_options::{default_plan, run_arguments, run_plan};
use crate::slips::push_tip;
use cdc_message::decimal_up_to;
use cdc_types::Limits;
use clap::error::ErrorKind;
use clap::{Arg, ArgAction, ArgMatches, Command, Error};
use std::alloc::{AllocError, Global};

/// The window if none is given.
pub const DEFAULT_WINDOW: usize = 1;

/// As the file of a script or a stream, this is standard input.
pub const STANDARD_INPUT: &str = "-";

/// As the file of a diagram, this is standard error.
pub const STANDARD_ERROR: &str = "-";

/// The name of a command.
#[derive(Clone, Copy)]
enum CommandName {
    Books,
    Messages,
    Simulate,
    Run,
    Follow,
    Audit,
    Chain,
    Consume,
}

/// The commands, in the order in which help lists them.
const COMMANDS: [CommandName; 8] = [
    CommandName::Books,
    CommandName::Messages,
    CommandName::Simulate,
    CommandName::Run,
    CommandName::Follow,
    CommandName::Audit,
    CommandName::Chain,
    CommandName::Consume,
];

const ABOUT: &str =
    "Change data capture: a script's batches go to a double-entry ledger, and its events are reported";

/// What `--help` adds after the commands.
const MORE: &str = "\
FILE is a script, and - is standard input. Without arguments the program acts as `run -`.

A script is a text of lines:
  subscriber all
  accounts 1000
  account id=1 ledger=700 code=10
  account id=2 ledger=700 code=10
  transfers 2000
  transfer id=1 debit_account_id=1 credit_account_id=2 amount=100 ledger=700 code=1
A subscriber's binding is all or any, and up to ten pairs of a header and its value, as in
  subscriber any event_type=two_phase_posted ledger=700

A script is run on threads: the ledger, each client, the connector, the broker and each subscriber have one each. The
N of a fault is counted over the whole run, from 1.

STEPS is a file with one step of a simulation in each line: batch, close_ledger, start, start at N, crash, poll,
publish, arrive K, answer K, save, send I, rewind I, break I, take I, ack I K or close I. I is a subscriber and its
queue, K counts the packets, the confirms or a subscriber's acknowledgements ever sent, from 1, and N is a timestamp in
nanoseconds.

Launcher options, before the command:
  --from-records  Build each crate from its proof record [default: unpack its library from proved/ if that fits the
                  sources and the toolchain, else use its record if that fits, else prove the crate]
  --prove         Prove every crate here, and use no record; continues a proof that was interrupted
  --unproved      Run the sources as they are, without a proof, while you are writing them
  --optimised     Have LLVM build the program, which takes longer; each run then takes fewer instructions
                  [default: Rattle's own compiler]; combines with the default way and with --from-records
  --install DIR   Put the program into DIR/bin, and the man page and the completions into DIR/share

Only ./relayplum, the launcher in the repository, takes launcher options. Its --version also prints how the program was
built, from which commit and with which kit.

Examples:
  relayplum books examples/two-phase.script
  relayplum messages examples/first-transfer.script
  relayplum simulate examples/two-phase.script examples/two-phase.steps
  relayplum run examples/first-transfer.script --lose-confirm 1

Exit status:
  0  all was done
  1  a read, a write, memory, a thread, a store or the run itself failed: the last line of standard output names the
     fault, unless a write failed; or a step was refused
  2  the arguments, a file or a line of a stream are bad: standard error reports what was expected, and where
  3  a stream has a gap, an event that is refused, or a line that contradicts its end";

/// What the arguments ask for, without the program's own name. Without arguments it is `run -`.
pub fn options<'a>(alloc: Global, args: &'a [&'a str]) -> Result<Options<'a>, OptionsFault>
    ensures none { length args.entry.now ≡ 0 → IsOkAnd result (IsRun (codes "-")) }
    ensures limits { IfOk result IsWithinLimits }
{
    if args.is_empty() {
        return Ok(Options::Run {
            file: STANDARD_INPUT,
            plan: default_plan(alloc),
            progress: None,
            deliveries: None,
            diagnostics: RunDiagnostics {
                explain: false,
                trace: false,
            },
            form: Form::Text,
        });
    }
    match read_arguments(alloc, args) {
        Ok(matches) => asked_by(alloc, &matches),
        Err(error) => help_or_fault(alloc, args, &error),
    }
}

/// The matches of clap. An error is also the answer to `--help` and `--version`.
fn read_arguments<'a>(alloc: Global, args: &'a [&'a str]) -> Result<ArgMatches<'a>, Error> {
    let mut program = Command::new(alloc, "relayplum")
        .no_binary_name(true)
        .bin_name("relayplum")?
        .version("1.1.1")
        .about(ABOUT)
        .after_help(MORE)
        .subcommand_required(true);
    for name in COMMANDS {
        program = program.subcommand(command_of(alloc, name)?)?;
    }
    program.try_get_matches_from(args)
}

/// The commands, each with its arguments.
fn all_commands(alloc: Global) -> Result<Vec<Command<'static>>, AllocError> {
    let mut commands = Vec::new(alloc);
    for name in COMMANDS {
        commands.push(command_of(alloc, name)?)?;
    }
    Ok(commands)
}

/// A command with its arguments.
fn command_of<'a>(alloc: Global, name: CommandName) -> Result<Command<'a>, AllocError> {
    match name {
        CommandName::Books => books_arguments(alloc),
        CommandName::Messages => messages_arguments(alloc),
        CommandName::Simulate => simulate_arguments(alloc),
        CommandName::Run => run_arguments(alloc),
        CommandName::Follow => follow_arguments(alloc),
        CommandName::Audit => audit_arguments(alloc),
        CommandName::Chain => chain_arguments(alloc),
        CommandName::Consume => consume_arguments(alloc),
    }
}

fn books_arguments<'a>(alloc: Global) -> Result<Command<'a>, AllocError> {
    let command = Command::new(alloc, "books")
        .about("Print the results of a script's batches and the books of its subscribers")
        .after_help(help::BOOKS)
        .arg(script_argument(alloc))?;
    with_arguments(alloc, command, &[explain_flag(), json_flag(), check_flag()])
}

fn messages_arguments<'a>(alloc: Global) -> Result<Command<'a>, AllocError> {
    let command = Command::new(alloc, "messages")
        .about(
            "Print two lines for each event of a script: what its message is routed by, and its JSON body",
        )
        .after_help(help::MESSAGES)
        .arg(script_argument(alloc))?;
    let queue = Argument::option(
        "queue",
        "I",
        "Print only the queue of subscriber I, as JSON lines that each name the message before [1-8]",
    );
    with_arguments(alloc, command, &[queue, json_flag(), check_flag()])
}

fn simulate_arguments<'a>(alloc: Global) -> Result<Command<'a>, AllocError> {
    let command = Command::new(alloc, "simulate")
        .about(
            "Take a script's batches and a session's packets step by step, and print the state that the steps lead to",
        )
        .after_help(help::SIMULATE)
        .arg(script_argument(alloc))?
        .arg(steps_argument(alloc)?)?;
    let command = with_arguments(
        alloc,
        command,
        &[
            random_option(),
            to_end_flag(),
            steps_option(),
            faults_option(),
            skip_refused_flag(),
            deliveries_option().without(&["check"]),
            expect_flag(),
            window_option(),
            explain_flag(),
            Argument::flag("trace", "Print on standard error what each step did"),
        ],
    )?
    .arg(diagram_option(alloc))?;
    with_arguments(
        alloc,
        command,
        &[page_option(), svg_option(), json_flag(), check_flag()],
    )
}

/// The argument FILE, a script.
pub fn script_argument<'a>(alloc: Global) -> Arg<'a> {
    Arg::new(alloc, "FILE")
        .required(true)
        .action(ArgAction::Set)
        .help("The script; - is standard input")
}

fn asked_form(arguments: &ArgMatches<'_>) -> Form {
    if arguments.get_flag("json") {
        Form::Json
    } else {
        Form::Text
    }
}

fn diagram_option<'a>(alloc: Global) -> Arg<'a> {
    Arg::new(alloc, "diagram")
        .long("diagram")
        .value_name("OUT")
        .action(ArgAction::Set)
        .num_args(0..=1)
        .require_equals(true)
        .default_missing_value(STANDARD_ERROR)
        .help(
            "Draw the steps as a sequence diagram for Mermaid, on standard error or in the file OUT",
        )
}

fn page_option() -> Argument {
    Argument::option(
        "page",
        "OUT",
        "Write the steps as a page of HTML, which any browser draws without a network, to the file OUT",
    )
    .without(&["check"])
}

fn svg_option() -> Argument {
    Argument::option(
        "svg",
        "OUT",
        "Draw the steps as SVG, a row for each step, in the file OUT",
    )
    .without(&["check"])
}

/// The argument STEPS, a file of steps.
fn steps_argument<'a>(alloc: Global) -> Result<Arg<'a>, AllocError> {
    Arg::new(alloc, "STEPS")
        .action(ArgAction::Set)
        .help("The file of the steps; /dev/stdin is standard input")
        .required_unless_present("random")
}

fn skip_refused_flag() -> Argument {
    Argument::flag(
        "skip-refused",
        "Skip the steps of STEPS that are refused, and report on standard error how many they were",
    )
    .without(&["random", "check"])
}

pub fn window_option() -> Argument {
    Argument::option(
        "window",
        "N",
        "Set the number of events that a session waits for at a time [1-64; default: 1]",
    )
}

pub fn explain_flag() -> Argument {
    Argument::flag(
        "explain",
        "Print on standard error why each request or batch was not accepted",
    )
}

fn check_flag() -> Argument {
    Argument::flag(
        "check",
        "Validate the files only: print the first fault, or nothing",
    )
}

pub fn json_flag() -> Argument {
    Argument::flag("json", "Print a JSON object on each line instead of text")
}

/// The command that the arguments name, with its files and its numbers.
fn asked_by<'a>(alloc: Global, matches: &ArgMatches<'a>) -> Result<Options<'a>, OptionsFault>
    ensures { IfOk result IsWithinLimits }
{
    if let Some((command, arguments)) = matches.subcommand() {
        if command == "consume" {
            return Ok(Options::Consume {
                plan: consume_plan(alloc, arguments)?,
                form: asked_form(arguments),
            });
        }
        if let Some(file) = arguments.get_str("FILE") {
            return asked_of(alloc, command, file, arguments);
        }
    }
    Err(usage_error(alloc, "error: no command has such arguments\n")?)
}

/// What the arguments ask of the command of this name, over this script.
fn asked_of<'a>(
    alloc: Global,
    command: &str,
    file: &'a str,
    arguments: &ArgMatches<'a>,
) -> Result<Options<'a>, OptionsFault>
    ensures { IfOk result IsWithinLimits }
{
    let form = asked_form(arguments);
    match (command, arguments.get_str("STEPS")) {
        ("simulate", Some(steps)) => simulation(alloc, file, steps, arguments),
        ("simulate", None) => random_simulation(alloc, file, arguments),
        ("books" | "messages", _) if arguments.get_flag("check") => {
            Ok(Options::Check {
                file,
                steps: None,
                has_diagram: false,
                form,
            })
        }
        ("books", _) => Ok(Options::Books {
            file,
            explain: arguments.get_flag("explain"),
            form,
        }),
        ("messages", _) => Ok(Options::Messages {
            file,
            queue: read_subscriber(alloc, arguments, "queue")?,
            form,
        }),
        ("run", _) => Ok(Options::Run {
            file,
            plan: run_plan(alloc, arguments)?,
            progress: asked_file(alloc, arguments, "progress")?,
            deliveries: asked_deliveries(alloc, arguments)?,
            diagnostics: RunDiagnostics {
                explain: arguments.get_flag("explain"),
                trace: arguments.get_flag("trace"),
            },
            form,
        }),
        ("follow", _) => Ok(Options::Follow {
            file,
            plan: follow_plan(alloc, arguments)?,
            form,
        }),
        ("audit", _) => Ok(Options::Audit {
            file,
            plan: audit_plan(alloc, arguments)?,
            form,
        }),
        ("chain", _) => Ok(Options::Chain {
            file,
            plan: chain_plan(alloc, arguments)?,
        }),
        _ => Err(usage_error(alloc, "error: no command has such arguments\n")?),
    }
}

/// A simulation of these files, with the window that is given, or that of one event. With `--check`, a check of the
/// files.
fn simulation<'a>(
    alloc: Global,
    file: &'a str,
    steps: &'a str,
    arguments: &ArgMatches<'a>,
) -> Result<Options<'a>, OptionsFault>
    ensures { IfOk result IsWithinLimits }
{
    let window = asked_window(alloc, arguments)?;
    if arguments.get_flag("check") {
        return Ok(Options::Check {
            file,
            steps: Some(steps),
            has_diagram: arguments.get_str("diagram").is_some(),
            form: asked_form(arguments),
        });
    }
    Ok(Options::Simulate {
        file,
        steps,
        skips_refused: arguments.get_flag("skip-refused"),
        window,
        deliveries: asked_deliveries(alloc, arguments)?,
        diagnostics: asked_diagnostics(arguments),
        form: asked_form(arguments),
    })
}

/// A simulation of this file by random steps, with the window that is given, or that of one event.
fn random_simulation<'a>(
    alloc: Global,
    file: &'a str,
    arguments: &ArgMatches<'a>,
) -> Result<Options<'a>, OptionsFault>
    ensures { IfOk result IsWithinLimits }
{
    let window = asked_window(alloc, arguments)?;
    Ok(Options::Random {
        file,
        window,
        deliveries: asked_deliveries(alloc, arguments)?,
        chances: asked_chances(alloc, arguments)?,
        diagnostics: asked_diagnostics(arguments),
        form: asked_form(arguments),
    })
}

/// The number of a subscriber that a flag gives, if it is given. A usage error if no script can have it.
pub fn read_subscriber(
    alloc: Global,
    arguments: &ArgMatches<'_>,
    flag: &str,
) -> Result<Option<usize>, OptionsFault> {
    let Some(word) = arguments.get_str(flag) else {
        return Ok(None);
    };
    match decimal_up_to(word.as_bytes(), Limits::SUBSCRIBERS as u128) {
        Some(number) if number != 0 => Ok(Some(number as usize)),
        _ => Err(bad_value(alloc, flag, word, "the number of a subscriber, from 1 to 8")?),
    }
}

/// What the arguments ask standard error to report of a simulation.
fn asked_diagnostics<'a>(arguments: &ArgMatches<'a>) -> Diagnostics<'a> {
    Diagnostics {
        explain: arguments.get_flag("explain"),
        trace: arguments.get_flag("trace"),
        diagram: arguments.get_str("diagram"),
        page: arguments.get_str("page"),
        svg: arguments.get_str("svg"),
    }
}

/// The window that the arguments give, or that of one event. A usage error if it isn't 1 to 64.
pub fn asked_window(alloc: Global, arguments: &ArgMatches<'_>) -> Result<usize, OptionsFault>
    ensures { IfOk result IsWindow }
{
    let Some(word) = arguments.get_str("window") else {
        return Ok(DEFAULT_WINDOW);
    };
    match read_window(word) {
        Some(window) => Ok(window),
        None => Err(bad_value(alloc, "window", word, "a number from 1 to 64")?),
    }
}

/// The window that an argument gives. None if it isn't 1 to 64.
fn read_window(word: &str) -> Option<usize>
    ensures { IfSome result IsWindow }
{
    let number = decimal_up_to(word.as_bytes(), Limits::WINDOW as u128)?;
    if number == 0 {
        None
    } else {
        Some(number as usize)
    }
}

/// The file that the option of this name gives, if it is given. A usage error if its name is empty.
pub fn asked_file<'a>(
    alloc: Global,
    arguments: &ArgMatches<'a>,
    option: &str,
) -> Result<Option<&'a str>, OptionsFault> {
    match arguments.get_str(option) {
        Some(name) if name.is_empty() || name == "sqlite:" => {
            Err(bad_value(alloc, option, name, "the name of a file is empty")?)
        }
        file => Ok(file),
    }
}

/// A usage error for the value of a flag, with what is expected.
pub fn bad_value(
    alloc: Global,
    flag: &str,
    value: &str,
    expected: &str,
) -> Result<OptionsFault, AllocError> {
    let mut message = String::from_str(alloc, "error: --")?;
    message.push_str(flag)?;
    message.push_str(" ")?;
    message.push_str(value)?;
    message.push_str(": ")?;
    message.push_str(expected)?;
    message.push_str("\n\nFor more information, try '--help'.\n")?;
    Ok(OptionsFault::BadWords { message })
}

/// A usage error with this message.
pub fn usage_error(alloc: Global, message: &str) -> Result<OptionsFault, AllocError> {
    let message = String::from_str(alloc, message)?;
    Ok(OptionsFault::BadWords { message })
}

/// What follows from clap's error: help or the version, if the arguments ask for it, or a usage error.
fn help_or_fault<'a>(
    alloc: Global,
    args: &[&str],
    error: &Error,
) -> Result<Options<'a>, OptionsFault>
    ensures { IfOk result IsWithinLimits }
{
    if error.kind() == ErrorKind::OutOfMemory {
        return Err(OptionsFault::OutOfMemory);
    }
    let mut text = error.to_string(alloc)?;
    if error.use_stderr() {
        push_tip(
            alloc,
            &mut text,
            args,
            all_commands(alloc)?.as_slice(),
            error,
        )?;
        Err(OptionsFault::BadWords { message: text })
    } else {
        Ok(Options::Explain { text })
    }
}
