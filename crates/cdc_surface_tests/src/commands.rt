//! The public calls of the program. A program's crate can't be used by another one, so each is called in the library
//! that has it.

use cdc_commands::books::{BooksEnded, books};
use cdc_commands::messages::messages;
use cdc_commands::observers::Observer;
use cdc_commands::simulate::simulate_command;
use cdc_commands::{Ended, Report};
use cdc_ledger::Ledger;
use cdc_output::Text;
use cdc_progress::MemoryStore;
use cdc_run::{Faults, OpenGate};
use cdc_run_command::{RunEnded, RunPlan, run_command};
use cdc_script::{ReadError, Script, ScriptFault, StepFile, read_script, read_steps};
use cdc_types::Step;
use cdc_world::{Did, Moved, StepError, World};
use std::alloc::Global;

const SCRIPT: &[u8] = b"subscriber all\n";

const STEPS: &[u8] = b"start\npublish\n";

const REPORT: &[u8] = b"subscriber 1 applied 0 last 0 ended yes closed no\n";

#[test]
fn files_are_read(rt: HostRuntime) {
    let mut reader: &[u8] = SCRIPT;
    let script: Result<Result<Script, ScriptFault>, ReadError> = read_script(
        rt.alloc(),
        &mut reader,
    );
    assert!(rt; matches!(&script, Ok(Ok(_))));
    let mut reader: &[u8] = STEPS;
    let steps: Result<Result<StepFile, ScriptFault>, ReadError> = read_steps(
        rt.alloc(),
        &mut reader,
    );
    assert!(rt; matches!(&steps, Ok(Ok(_))));
}

#[test]
fn books_prints_a_report(rt: HostRuntime) {
    let mut reader: &[u8] = SCRIPT;
    let mut text: Vec<u8> = Vec::new(rt.alloc());
    let BooksEnded { ended, .. } = books(&Text, rt.alloc(), &mut reader, &mut text);
    let status: u8 = ended.ending.status();
    assert_eq!(rt; status, 0);
    assert!(rt; text.as_slice() == REPORT);
}

#[test]
fn messages_prints_nothing_without_events(rt: HostRuntime) {
    let mut reader: &[u8] = SCRIPT;
    let mut text: Vec<u8> = Vec::new(rt.alloc());
    let ended: Ended = messages(&Text, rt.alloc(), &mut reader, &mut text);
    let status: u8 = ended.ending.status();
    assert_eq!(rt; (status, text.len()), (0, 0));
}

// Observes nothing.
#[derive(Drop)]
struct Blind;

impl Observer for Blind {
    ghost has_seen = { λ observer seen. Unit {0} };

    fn begin(&mut self, _alloc: Global, _script: &Script, _steps: &StepFile) {}

    fn see(&mut self, _step: &Step, _did: &Did, _moved: Option<Moved>, _ledger: &Ledger) {}

    fn refuse(&mut self, _step: Option<&Step>, _why: StepError, _world: &World<MemoryStore>) {}

    fn end(&mut self, _ledger: &Ledger) {}
}

#[test]
fn simulate_command_prints_a_report(rt: HostRuntime) {
    let mut script: &[u8] = SCRIPT;
    let mut steps: &[u8] = STEPS;
    let mut text: Vec<u8> = Vec::new(rt.alloc());
    let ended: Ended = simulate_command(
        &Text,
        &Report,
        rt.alloc(),
        &mut script,
        &mut steps,
        1,
        &mut text,
        &mut Blind,
    );
    let status: u8 = ended.ending.status();
    assert_eq!(rt; status, 0);
    assert!(rt; text.starts_with(b"steps 2 of 2\n"));
}

#[test]
fn run_prints_a_report(rt: HostRuntime) {
    let mut reader: &[u8] = SCRIPT;
    let mut text: Vec<u8> = Vec::new(rt.alloc());
    let plan = RunPlan {
        window: 1,
        prefetch: 8,
        faults: Faults::none(rt.alloc()),
        start: None,
    };
    let store = MemoryStore::new();
    let RunEnded { ended, .. } = run_command(
        &Text,
        &Report,
        &rt,
        &mut reader,
        plan,
        store,
        &OpenGate,
        &mut text,
    );
    let status: u8 = ended.ending.status();
    assert_eq!(rt; status, 0);
    assert!(rt; text.as_slice() == REPORT);
}
