//! The command `run`: a script's batches, submitted by clients on threads, and the books of its subscribers, to which
//! the events come over a connector and a broker on threads of their own.

ghost use Rattle.std.specs.Prelude.{◌≡◌, ◌+◌, ℕ, List, IfErr, IfOk, Ok, Some};
ghost use Rattle.cdc_script.specs.Reading.{ConsumesAtMost};
ghost use Rattle.cdc_script.specs.Scripts.{max_bytes, script_of};
ghost use Rattle.cdc_run_command.specs.Failed.{MayFail, StoppedSo};
ghost use Rattle.cdc_run_command.specs.LoneRuns.{LoneRunsPrintBooks};
ghost use Rattle.cdc_plans.specs.Plans.{IsPlan};
ghost use Rattle.cdc_commands.specs.Outcomes.{Writes};
ghost use Rattle.cdc_run_command.specs.Runnable.{IsRunnable};
ghost use Rattle.cdc_run_command.specs.RunPrinted.{RunCommandPrints};
ghost use Rattle.cdc_run_command.specs.Runs.{HasRunOf, IsPrintedOf, setting_of};

use crate::failures::RunFailed;
use crate::lone_runs::lone_run_laws;
use crate::reports::{Ran, report_of_run};
use crate::run_contents::RunContent;
use cdc_commands::{Ended, Ending, Form, Notes, Output, Tally, print_output, read_file};
use cdc_plans::RunPlan;
use cdc_progress::ProgressStore;
use cdc_run::{Gate, Met, Place, Report};
use cdc_script::{Script, ScriptError, parse_script};
use std::alloc::{AllocError, AllocGlobal, Global};
use std::io::{Read, Write};
use std::sync::Wait;
use std::thread::Threads;

/// What `run` prints for a script, and the run that it reports.
#[derive(Drop)]
pub struct RunOutput {
    /// What it prints, and how it ends.
    pub output: Output,
    /// What the run came to. None if the script has an error, or lacks what has to be found.
    pub ran: Option<Ran>,
}

/// How the command `run` ended, and what its run came to.
#[derive(Drop)]
pub struct RunEnded {
    pub ended: Ended,
    /// What the run came to. None if the script has an error, or lacks what has to be found, or the run failed.
    pub ran: Option<Ran>,
    /// If the run failed because an actor stopped, its place and why it did.
    pub stop: Option<(Place, Met)>,
}

/// What `run` prints for the bytes of a script, and how it ends: this content of the run. The report has what the
/// ledger answered to each batch, in the order of the script, and what each subscriber holds when the run ends. For a
/// script with an error it is the error. If the script lacks what the content has to find, it runs nothing, prints
/// nothing and ends as a usage error. Fails if the run does.
pub fn run_of<
    F: Form,
    C: RunContent<F>,
    T: Threads + Wait + Sync,
    S: ProgressStore + Send + Drop,
    G: Gate + Sync,
>(
    form: &F,
    content: &C,
    rt: &T,
    alloc: Global,
    bytes: &[u8],
    plan: RunPlan,
    store: S,
    gate: &G,
) -> Result<RunOutput, RunFailed>
    requires { IsPlan plan }
    ensures output { IfOk result (λ made. RunCommandPrints (C.prints_ran content.now) (C.finds content.now)
        F.prints_fault (setting_of plan (S.held store) (S.is_honest store) (S.risks store)) (Some bytes.now)
        made.output.ending made.output.text.items) }
    ensures ran { IfOk result (λ made. IsPrintedOf (C.prints_ran content.now) (Some bytes.now) made.ran
        made.output.text.items) }
    ensures report { IfOk result (λ made. HasRunOf
        (setting_of plan (S.held store) (S.is_honest store) (S.risks store)) (Some bytes.now)
        made.output.ending made.ran) }
    ensures failed { IfErr result (MayFail (S.is_honest store) (S.risks store)) }
{
    match parse_script(alloc, bytes) {
        Ok(script) => run_script(form, content, rt, alloc, script, plan, store, gate),
        Err(ScriptError::Fault(fault)) => Ok(RunOutput {
            output: Output::of_bad_script(form, alloc, bytes, fault)?,
            ran: None,
        }),
        Err(ScriptError::OutOfMemory) => Err(RunFailed::from(AllocError)),
    }
}

fn run_script<
    F: Form,
    C: RunContent<F>,
    T: Threads + Wait + Sync,
    S: ProgressStore + Send + Drop,
    G: Gate + Sync,
>(
    form: &F,
    content: &C,
    rt: &T,
    alloc: Global,
    script: Script,
    plan: RunPlan,
    store: S,
    gate: &G,
) -> Result<RunOutput, RunFailed>
    requires plan { IsPlan plan }
    requires script { IsRunnable script }
    ensures output { (bytes : List ℕ) → script_of bytes ≡ Ok script
        → IfOk result (λ made. RunCommandPrints (C.prints_ran content.now) (C.finds content.now) F.prints_fault
        (setting_of plan (S.held store) (S.is_honest store) (S.risks store)) (Some bytes)
        made.output.ending made.output.text.items) }
    ensures ran { (bytes : List ℕ) → script_of bytes ≡ Ok script → IfOk result (λ made.
        IsPrintedOf (C.prints_ran content.now) (Some bytes) made.ran made.output.text.items) }
    ensures report { (bytes : List ℕ) → script_of bytes ≡ Ok script → IfOk result (λ made. HasRunOf
        (setting_of plan (S.held store) (S.is_honest store) (S.risks store)) (Some bytes)
        made.output.ending made.ran) }
    ensures failed { IfErr result (MayFail (S.is_honest store) (S.risks store)) }
{
    let notes = Notes::of(alloc, &script);
    let sought = content.find(alloc, &script)?;
    let Some(found) = sought else {
        return Ok(RunOutput {
            output: Output::of_usage_error(alloc),
            ran: None,
        });
    };
    let ran = report_of_run(rt, alloc, script, plan, store, gate)?;
    let text = content.print(form, alloc, &found, &ran)?;
    let tally = tally_of(&ran.report);
    Ok(RunOutput {
        output: Output {
            text,
            ending: Ending::Done,
            tally,
            notes,
        },
        ran: Some(ran),
    })
}

/// Counts what wasn't accepted in a run.
pub fn tally_of(report: &Report) -> Tally {
    let mut tally = Tally::NONE;
    for replies in report.replies.as_slice() {
        for reply in replies.as_slice() {
            tally.add(&reply.answer);
        }
    }
    tally
}

/// Reads a script, runs it on threads, and prints what `run_of` makes of its bytes. A command that fails prints why,
/// and nothing else. Nothing is written after a write that failed. The law `alone`: if one client submits all batches
/// of a script, whatever its number, no subscriber is asked to close, no session is given a start, and the store holds
/// nothing, or the timestamp 0 and the start 0, then a run prints as its report, as text, what `books` prints.
pub fn run_command<
    F: Form,
    C: RunContent<F>,
    T: Threads + Wait + Sync + AllocGlobal,
    R: Read,
    W: Write,
    S: ProgressStore + Send + Drop,
    G: Gate + Sync,
>(
    form: &F,
    content: &C,
    rt: &T,
    reader: &mut R,
    plan: RunPlan,
    store: S,
    gate: &G,
    writer: &mut W,
) -> RunEnded
    requires { IsPlan plan }
    ensures writes { Writes (RunCommandPrints (C.prints_ran content.now) (C.finds content.now) F.prints_fault
        (setting_of plan (S.held store) (S.is_honest store) (S.risks store)) (R.remaining reader.old))
        (W.contents writer.old) (W.contents writer.new) result.ended.ending }
    ensures report { HasRunOf (setting_of plan (S.held store) (S.is_honest store) (S.risks store))
        (R.remaining reader.old) result.ended.ending result.ran }
    ensures stop { StoppedSo (S.is_honest store) (S.risks store) result.stop result.ended.ending }
    ensures alone { LoneRunsPrintBooks }
    ensures bounded { ConsumesAtMost (max_bytes + 1)
        (R.remaining reader.old) (R.remaining reader.new) }
{
    lone_run_laws();
    match read_run(form, content, rt, rt.alloc(), reader, plan, store, gate) {
        Ok(RunOutput { output, ran }) => RunEnded {
            ended: print_output(form, writer, Ok(output)),
            ran,
            stop: None,
        },
        Err(RunFailed { fault, stop }) => RunEnded {
            ended: print_output(form, writer, Err(fault)),
            ran: None,
            stop,
        },
    }
}

/// What `run` prints for the script of a reader. At most one byte more than a script may have is read.
fn read_run<
    F: Form,
    C: RunContent<F>,
    T: Threads + Wait + Sync,
    R: Read,
    S: ProgressStore + Send + Drop,
    G: Gate + Sync,
>(
    form: &F,
    content: &C,
    rt: &T,
    alloc: Global,
    reader: &mut R,
    plan: RunPlan,
    store: S,
    gate: &G,
) -> Result<RunOutput, RunFailed>
    requires { IsPlan plan }
    ensures output { IfOk result (λ made. RunCommandPrints (C.prints_ran content.now) (C.finds content.now)
        F.prints_fault (setting_of plan (S.held store) (S.is_honest store) (S.risks store)) (R.remaining reader.old)
        made.output.ending made.output.text.items) }
    ensures ran { IfOk result (λ made. IsPrintedOf (C.prints_ran content.now) (R.remaining reader.old) made.ran
        made.output.text.items) }
    ensures report { IfOk result (λ made. HasRunOf
        (setting_of plan (S.held store) (S.is_honest store) (S.risks store)) (R.remaining reader.old)
        made.output.ending made.ran) }
    ensures failed { IfErr result (MayFail (S.is_honest store) (S.risks store)) }
    ensures bounded { ConsumesAtMost (max_bytes + 1)
        (R.remaining reader.old) (R.remaining reader.new) }
{
    let bytes = read_file(alloc, reader)?;
    run_of(form, content, rt, alloc, &bytes, plan, store, gate)
}
