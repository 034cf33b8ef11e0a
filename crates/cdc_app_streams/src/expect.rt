//! The flag `--expect` of `follow`: a stream in, and what comes of each of its lines out.

use crate::failures::print_failure;
use crate::follow_advice::advise_on_stop;
use crate::keys::{random_key, refuse_key};
use crate::lines::{Lines, lines_of, refuse_reading};
use crate::watched::Watched;
use cdc_app_inputs::{Stream, shown_name};
use cdc_arguments::Form;
use cdc_expect::expect_command;
use cdc_follow::{Follower, Rules};
use cdc_follow_command::{FollowEnding, begin};
use cdc_match::Binding;
use cdc_output::{Json, ProgramFault};
use cdc_streams::{LineReader, StreamEnding};
use std::io;
use std::sync::Wait;
use std::thread::Threads;

/// Follows the stream in the file of this name, prints what comes of each line, and reports on standard error why that
/// stopped before the end. Following begins after the event of this timestamp, if one is named.
pub fn run_expect<T: Threads + Wait + Copy + Send + 'static>(
    rt: &HostRuntime,
    threads: &T,
    file: &str,
    rules: Rules,
    binding: &Binding,
    after: Option<u64>,
) -> FollowEnding {
    let key = match random_key(rt) {
        Ok(key) => key,
        Err(error) => return StreamEnding::Failed(refuse_key(rt, error, Form::Json)),
    };
    let mut follower = begin(rt.alloc(), key, after);
    let stream = Stream::of(rt, file);
    let may_wait = stream.may_wait();
    let Ok(source) = Watched::new(*rt, stream, shown_name(file), rules.chained) else {
        let fault = ProgramFault::OutOfMemory;
        print_failure(rt, Form::Json, fault);
        return StreamEnding::Failed(fault);
    };
    let (ending, line) = match lines_of(threads, rt.alloc(), source, may_wait) {
        Ok(Lines::Plain(mut reader)) => {
            let ending = expect_lines(rt, &mut reader, rules, binding, &mut follower);
            (ending, reader.into_line())
        }
        Ok(Lines::Ahead(mut reader)) => {
            let ending = expect_lines(rt, &mut reader, rules, binding, &mut follower);
            (ending, reader.into_line())
        }
        Err(fault) => return StreamEnding::Failed(refuse_reading(rt, fault, Form::Json)),
    };
    advise_on_stop(rt, file, None, &follower, ending, Some(line.as_slice()));
    ending
}

/// Follows the lines of this reader, and prints what comes of each.
fn expect_lines<B: LineReader>(
    rt: &HostRuntime,
    reader: &mut B,
    rules: Rules,
    binding: &Binding,
    follower: &mut Follower,
) -> FollowEnding {
    let mut writer = io::writer(rt);
    expect_command(
        &Json,
        rt.alloc(),
        reader,
        &mut writer,
        binding,
        rules,
        follower,
    )
}
