//! The flags `--checked` and `--expect` of `follow` together: a stream in, each event of which is checked, and what comes
//! of each of its lines out.

use crate::checked::{CheckStart, advise_on_checked, begun_follower, refuse_start};
use crate::failures::print_failure;
use crate::held::Asked;
use crate::lines::{Lines, lines_of, refuse_reading};
use crate::watched::Watched;
use cdc_app_inputs::{Stream, shown_name};
use cdc_arguments::Form;
use cdc_checked_command::CheckEnding;
use cdc_checked_follow::CheckedFollower;
use cdc_expect::expect_checked_command;
use cdc_keys::HashKey;
use cdc_match::Binding;
use cdc_output::{Json, ProgramFault};
use cdc_streams::{LineReader, StreamEnding};
use std::io;
use std::sync::Wait;
use std::thread::Threads;

/// Follows the stream in the file of this name by checking each event, prints what comes of each line, and reports on
/// standard error why that stopped before the end. It begins with what `start` names, and keeps no book.
pub(crate) fn expect_checked<T: Threads + Wait + Copy + Send + 'static>(
    rt: &HostRuntime,
    threads: &T,
    file: &str,
    key: HashKey,
    start: CheckStart<'_>,
    skips_gaps: bool,
    binding: &Binding,
    binding_text: &[u8],
) -> CheckEnding {
    let mut follower = match begun_follower(rt, key, start, binding) {
        Ok(follower) => follower,
        Err(error) => {
            let asked = Asked::Checked {
                by_baseline: start.baseline,
                binding: binding_text,
            };
            return refuse_start(rt, file, error, asked, Form::Json);
        }
    };
    let stream = Stream::of(rt, file);
    let may_wait = stream.may_wait();
    // (a member `previous` isn't needed, so it is no matter that nobody reads it)
    let Ok(source) = Watched::new(*rt, stream, shown_name(file), true) else {
        let fault = ProgramFault::OutOfMemory;
        print_failure(rt, Form::Json, fault);
        return StreamEnding::Failed(fault);
    };
    let (ending, line) = match lines_of(threads, rt.alloc(), source, may_wait) {
        Ok(Lines::Plain(mut reader)) => {
            let ending = expect_lines(rt, &mut reader, skips_gaps, binding, &mut follower);
            (ending, reader.into_line())
        }
        Ok(Lines::Ahead(mut reader)) => {
            let ending = expect_lines(rt, &mut reader, skips_gaps, binding, &mut follower);
            (ending, reader.into_line())
        }
        Err(fault) => return StreamEnding::Failed(refuse_reading(rt, fault, Form::Json)),
    };
    advise_on_checked(rt, file, None, ending, line.as_slice());
    ending
}

/// Follows the lines of this reader, and prints what comes of each.
fn expect_lines<B: LineReader>(
    rt: &HostRuntime,
    reader: &mut B,
    skips_gaps: bool,
    binding: &Binding,
    follower: &mut CheckedFollower,
) -> CheckEnding {
    let mut writer = io::writer(rt);
    expect_checked_command(
        &Json,
        rt.alloc(),
        reader,
        &mut writer,
        binding,
        skips_gaps,
        follower,
    )
}
