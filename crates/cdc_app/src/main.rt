//! The program: a script in, and a report of its ledger, its messages or its subscribers' books out.
#![tactic(auto)]

use cdc_app_consume::run_consume;
use cdc_app_inputs::{
    EXPLAIN, Escaped, Kept, Source, abort, advise, advise_on_script, advise_on_steps, hint, note,
    open_standard, shown_name,
};
use cdc_app_runs::{WantedRun, run_on_threads};
use cdc_app_simulations::{Wanted, run_random, run_simulation};
use cdc_app_streams::{run_audit, run_chain, run_checked, run_follow};
pub use cdc_arguments::options;
use cdc_arguments::{ChainPlan, FollowPlan, Form, Options, OptionsFault};
use cdc_audit_command::audit_status;
use cdc_chain_command::chain_status;
use cdc_checked_command::check_status;
use cdc_commands::books::BooksEnded;
pub use cdc_commands::books::books;
use cdc_commands::check::{check, check_files};
pub use cdc_commands::messages::messages;
use cdc_commands::queues::queue;
pub use cdc_commands::simulate::simulate_command;
use cdc_commands::{Ended, Ending, ParsedBatches, Tally, print_text};
use cdc_diagnostics::books_lines;
use cdc_follow_command::follow_status;
use cdc_output::{Json, ProgramFault, Text};
pub use cdc_run_command::run_command;
pub use cdc_script::{read_script, read_steps};
use std::alloc::{AllocError, AllocGlobal};
use std::io::IsTerminal;
use std::process::ExitCode;
use std::sync::Wait;
use std::thread::Threads;
use std::{env, io};

/// The number of the system's error for a descriptor that isn't open.
const BAD_DESCRIPTOR: i32 = 9;

fn main(rt: HostRuntime) -> ExitCode {
    let has_output = match open_standard(&rt) {
        Ok(has_output) => has_output,
        Err(error) => return ExitCode::from(refuse_descriptors(&rt, error)),
    };
    let status = match command_line_of(&rt) {
        Ok(args) => run_arguments(&rt, &rt, args.as_slice(), has_output),
        Err(error) if error.kind() == io::ErrorKind::InvalidData => {
            refuse_arguments(&rt, "error: an argument is not UTF-8 text\n").status()
        }
        Err(_) => abort(&rt, ProgramFault::OutOfMemory, Form::Text).status(),
    };
    ExitCode::from(status)
}

/// Reports that a standard descriptor may be closed, in which case no file can be opened, and returns the exit status.
fn refuse_descriptors(rt: &HostRuntime, error: io::Error) -> u8 {
    let ending = abort(rt, ProgramFault::ReadFault(error), Form::Text);
    let _ = eprintln!(rt; "relayplum: /dev/null can't be opened in place of a closed descriptor");
    ending.status()
}

/// The arguments, without the program's own name.
fn command_line_of(rt: &HostRuntime) -> io::Result<Vec<String>> {
    let args: Vec<String> = env::args(rt)?.skip(1).collect(rt.alloc())?;
    Ok(args)
}

/// Does what the arguments ask for, and returns the exit status. `threads` starts the threads of a run, and those that
/// read streams ahead. `has_output`: standard output isn't closed.
fn run_arguments<T: Threads + Wait + Sync + AllocGlobal + Copy + Send + 'static>(
    rt: &HostRuntime,
    threads: &T,
    args: &[String],
    has_output: bool,
) -> u8 {
    let texts: Result<Vec<&str>, AllocError> = args
        .iter()
        .map(|word| word.as_str())
        .collect(rt.alloc());
    let Ok(texts) = texts else {
        return abort(rt, ProgramFault::OutOfMemory, Form::Text).status();
    };
    if texts.is_empty() && rt.reader().is_terminal() {
        let _ = eprintln!(rt;
            "relayplum: a script is read from standard input, up to its end; --help describes it"
        );
    }
    let ending = match options(rt.alloc(), texts.as_slice()) {
        Ok(
            Options::Books {
                file,
                explain,
                form,
            },
        ) => run_books(rt, file, explain, form),
        Ok(
            Options::Messages {
                file,
                queue: None,
                form,
            },
        ) => run_messages(rt, file, form),
        Ok(
            Options::Messages {
                file,
                queue: Some(number),
                form,
            },
        ) => run_queue(rt, file, number, form),
        Ok(
            Options::Simulate {
                file,
                steps,
                skips_refused,
                window,
                deliveries,
                diagnostics,
                form,
            },
        ) => {
            let wanted = Wanted {
                skips_refused,
                window,
                deliveries,
                form,
            };
            run_simulation(rt, file, steps, wanted, diagnostics)
        }
        Ok(
            Options::Run {
                file,
                plan,
                progress,
                deliveries,
                diagnostics,
                form,
            },
        ) => {
            let wanted = WantedRun {
                plan,
                progress,
                deliveries,
                diagnostics,
                form,
            };
            run_on_threads(rt, threads, file, wanted)
        }
        Ok(
            Options::Random {
                file,
                window,
                deliveries,
                chances,
                diagnostics,
                form,
            },
        ) => {
            let wanted = Wanted {
                skips_refused: false,
                window,
                deliveries,
                form,
            };
            run_random(rt, file, wanted, chances, diagnostics)
        }
        Ok(
            Options::Check {
                file,
                steps,
                has_diagram,
                form,
            },
        ) => run_check(rt, file, steps, has_diagram, form),
        Ok(Options::Follow { file, plan, form }) => {
            return run_following(rt, threads, file, plan, form);
        }
        Ok(Options::Audit { file, plan, form }) => {
            return audit_status(run_audit(rt, threads, file, plan, form));
        }
        Ok(Options::Chain { file, plan }) => {
            return run_chaining(rt, threads, file, plan, has_output);
        }
        Ok(Options::Consume { plan, form }) => return run_consume(rt, threads, plan, form),
        Ok(Options::Explain { text }) => explain(rt, text.as_str()),
        Err(OptionsFault::BadWords { message }) => refuse_arguments(rt, message.as_str()),
        Err(OptionsFault::OutOfMemory) => abort(rt, ProgramFault::OutOfMemory, Form::Text),
    };
    ending.status()
}

/// Follows the stream in the file of this name, and returns the exit status.
fn run_following<T: Threads + Wait + Copy + Send + 'static>(
    rt: &HostRuntime,
    threads: &T,
    file: &str,
    plan: FollowPlan<'_>,
    form: Form,
) -> u8 {
    if plan.checks {
        check_status(run_checked(rt, threads, file, plan, form))
    } else {
        follow_status(run_follow(rt, threads, file, plan, form))
    }
}

/// Chains the stream in the file of this name, if there is a standard output, and returns the exit status. Without one
/// its lines would be lost, and its state would go on.
fn run_chaining<T: Threads + Wait + Copy + Send + 'static>(
    rt: &HostRuntime,
    threads: &T,
    file: &str,
    plan: ChainPlan<'_>,
    has_output: bool,
) -> u8 {
    if !has_output {
        let closed = io::Error::from_raw_os_error(BAD_DESCRIPTOR);
        return abort(rt, ProgramFault::WriteFault(closed), Form::Text).status();
    }
    chain_status(run_chain(rt, threads, file, plan))
}

/// Runs `books` over the script of this name, and reports on standard error why it failed, or what wasn't accepted.
fn run_books(rt: &HostRuntime, file: &str, explain: bool, form: Form) -> Ending {
    let mut script = Kept::new(rt.alloc(), Source::of_script(rt, file));
    let BooksEnded {
        ended: Ended {
            ending,
            tally,
            notes,
        },
        parsed,
    } = print_books(rt, &mut script, form);
    if let (Ending::Done, Some(parsed)) = (ending, parsed) {
        diagnose_books(rt, file, parsed, explain, tally);
        note(rt, file, notes, true);
    }
    advise_on_script(rt, script.seen(shown_name(file)), ending);
    ending
}

/// Prints why each item of a script's batches wasn't accepted, and each batch that was refused.
fn explain_books(rt: &HostRuntime, file: &str, parsed: ParsedBatches) {
    if let Some(text) = books_lines(rt.alloc(), shown_name(file), parsed) {
        let _ = eprint!(rt; "{text}");
    }
}

/// Prints what wasn't accepted of a script's batches, and why, if that is asked for.
fn diagnose_books(
    rt: &HostRuntime,
    file: &str,
    parsed: ParsedBatches,
    explain: bool,
    tally: Tally,
) {
    if explain {
        explain_books(rt, file, parsed);
    } else {
        hint(rt, tally, EXPLAIN);
    }
}

fn print_books(rt: &HostRuntime, script: &mut Kept<Source>, form: Form) -> BooksEnded {
    let alloc = rt.alloc();
    let mut writer = io::writer(rt);
    match form {
        Form::Text => books(&Text, alloc, script, &mut writer),
        Form::Json => books(&Json, alloc, script, &mut writer),
    }
}

/// Runs `messages` over the script of this name, and reports on standard error why it failed.
fn run_messages(rt: &HostRuntime, file: &str, form: Form) -> Ending {
    let mut script = Kept::new(rt.alloc(), Source::of_script(rt, file));
    let mut writer = io::writer(rt);
    let Ended { ending, notes, .. } = match form {
        Form::Text => messages(&Text, rt.alloc(), &mut script, &mut writer),
        Form::Json => messages(&Json, rt.alloc(), &mut script, &mut writer),
    };
    let seen = script.seen(shown_name(file));
    if let Ending::Done = ending {
        note(rt, file, notes, true);
    }
    advise_on_script(rt, seen, ending);
    ending
}

/// Runs `messages` over the script of this name, for the queue of the subscriber of this number, and reports on
/// standard error if the script has no such subscriber, or why the command failed.
fn run_queue(rt: &HostRuntime, file: &str, number: usize, form: Form) -> Ending {
    let mut script = Kept::new(rt.alloc(), Source::of_script(rt, file));
    let mut writer = io::writer(rt);
    let Ended { ending, notes, .. } = match form {
        Form::Text => queue(&Text, rt.alloc(), &mut script, &mut writer, number),
        Form::Json => queue(&Json, rt.alloc(), &mut script, &mut writer, number),
    };
    let seen = script.seen(shown_name(file));
    match ending {
        Ending::Done => note(rt, file, notes, true),
        Ending::BadWords => {
            let _ = eprintln!(rt; "relayplum: --queue {number}: the script has no such subscriber");
        }
        _ => {}
    }
    advise_on_script(rt, seen, ending);
    ending
}

/// Validates the script of this name, and the step file if there is one, and reports on standard error what is wrong.
fn run_check(
    rt: &HostRuntime,
    file: &str,
    steps: Option<&str>,
    has_diagram: bool,
    form: Form,
) -> Ending {
    if has_diagram {
        let _ = eprintln!(rt; "relayplum: note: nothing is drawn with --check");
    }
    let mut script = Kept::new(rt.alloc(), Source::of_script(rt, file));
    let mut writer = io::writer(rt);
    let Some(steps) = steps else {
        let ending = match form {
            Form::Text => check(&Text, rt.alloc(), &mut script, &mut writer),
            Form::Json => check(&Json, rt.alloc(), &mut script, &mut writer),
        };
        advise_on_script(rt, script.seen(shown_name(file)), ending);
        return ending;
    };
    let mut step_file = Kept::new(rt.alloc(), Source::of_file(rt, steps));
    let ending = match form {
        Form::Text => check_files(&Text, rt.alloc(), &mut script, &mut step_file, &mut writer),
        Form::Json => check_files(&Json, rt.alloc(), &mut script, &mut step_file, &mut writer),
    };
    advise_on_steps(
        rt,
        script.seen(shown_name(file)),
        step_file.seen(steps),
        ending,
    );
    ending
}

/// Prints help or the version.
fn explain(rt: &HostRuntime, text: &str) -> Ending {
    let ending = print_text(&mut io::writer(rt), text.as_bytes(), Ending::Done);
    advise(rt, ending);
    ending
}

/// Reports a usage error on standard error, without the control characters that an argument may have.
fn refuse_arguments(rt: &HostRuntime, message: &str) -> Ending {
    for line in message.lines() {
        let line = Escaped(line);
        let _ = eprintln!(rt; "{line}");
    }
    Ending::BadWords
}
