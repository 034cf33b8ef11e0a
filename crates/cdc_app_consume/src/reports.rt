//! The report of a consumer: a file that is replaced as a whole.

use cdc_app_inputs::Escaped;
use cdc_arguments::Form;
use cdc_consume_command::{ConsumeForm, Outcome};
use cdc_files::{StoreError, path_of_new};
use cdc_follow::Counts;
use cdc_follow_command::{FollowSetup, StreamFollower};
use cdc_output::{Json, Text};
use cdc_streams::Keeps;
use std::alloc::{AllocError, Global};
use std::io::Write;
use std::time::Instant;
use std::{fs, io};

/// A report in a file, if one is wanted.
#[derive(Clone, Copy)]
pub struct Report<'a> {
    rt: HostRuntime,
    path: Option<&'a str>,
    form: Form,
    /// When the progress was reported last.
    reported: Option<Instant>,
}

impl<'a> Report<'a> {
    /// A report in the file at this path, which isn't written yet.
    pub fn new(rt: HostRuntime, path: Option<&'a str>, form: Form) -> Report<'a> {
        Report {
            rt,
            path,
            form,
            reported: None,
        }
    }

    /// Whether its form is JSON.
    pub fn is_json(&self) -> bool {
        match self.form {
            Form::Text => false,
            Form::Json => true,
        }
    }

    /// Reports the end.
    pub fn end(&self, outcome: Outcome<'_>, counts: Counts, seen: u64) {
        if self.path.is_some() {
            self.put(self.end_text(outcome, counts, seen));
        }
    }

    /// The text of the report at the end.
    pub fn end_text(
        &self,
        outcome: Outcome<'_>,
        counts: Counts,
        seen: u64,
    ) -> Result<Vec<u8>, AllocError> {
        let alloc = self.rt.alloc();
        match self.form {
            Form::Text => Text.end(alloc, outcome, counts, seen),
            Form::Json => Json.end(alloc, outcome, counts, seen),
        }
    }

    /// Reports the progress of this queue, in the file and on standard error, unless that was done less than a second
    /// ago.
    pub fn progress(&mut self, queue: &str, counts: Counts, seen: u64) {
        if self.path.is_none() || !self.is_due() {
            return;
        }
        self.reported = Instant::now(&self.rt).ok();
        let alloc = self.rt.alloc();
        let text = match self.form {
            Form::Text => Text.progress(alloc, counts, seen),
            Form::Json => Json.progress(alloc, counts, seen),
        };
        if self.is_json() {
            if let Ok(text) = &text {
                let _ = self.rt.stderr().write_all(text.as_slice());
            }
        } else {
            self.advise(queue, counts, seen);
        }
        self.put(text);
    }

    /// Reports the progress on standard error.
    fn advise(&self, queue: &str, counts: Counts, seen: u64) {
        let queue = Escaped(queue);
        let Counts {
            applied,
            duplicates,
            passed,
            ..
        } = counts;
        let _ = eprintln!(self.rt;
            "{queue}: saved: applied {applied}, duplicates {duplicates}, passed {passed}, seen {seen}"
        );
    }

    /// Whether a second has gone by since the last report.
    fn is_due(&self) -> bool {
        match self.reported {
            Some(instant) => instant
                .elapsed(&self.rt)
                .is_ok_and(|elapsed| elapsed.as_secs() >= 1),
            None => true,
        }
    }

    /// Replaces the report by this text.
    fn put(&self, text: Result<Vec<u8>, AllocError>) {
        let Some(path) = self.path else {
            return;
        };
        let written = match text {
            Ok(text) => replace(&self.rt, path, text.as_slice()),
            Err(_) => Err(io::Error::from(io::ErrorKind::OutOfMemory)),
        };
        if let Err(error) = written {
            let path = Escaped(path);
            let _ = eprintln!(self.rt; "{path}: the report can't be written: {error}");
        }
    }
}

/// Replaces a file by one with this text.
fn replace(rt: &HostRuntime, path: &str, text: &[u8]) -> io::Result<()> {
    let Ok(new_path) = path_of_new(rt.alloc(), path) else {
        return Err(io::Error::from(io::ErrorKind::OutOfMemory));
    };
    fs::write(rt, new_path.as_str(), text)?;
    fs::rename(rt, new_path.as_str(), path)
}

/// A store of a follower, which reports each save.
#[derive(Clone, Copy)]
pub struct ReportingStore<'a, K> {
    store: K,
    report: Report<'a>,
    queue: &'a str,
}

impl<'a, K> ReportingStore<'a, K> {
    /// This store, with this report of this queue.
    pub fn new(store: K, report: Report<'a>, queue: &'a str) -> ReportingStore<'a, K> {
        ReportingStore {
            store,
            report,
            queue,
        }
    }
}

impl<'a, K: Keeps<StreamFollower>> Keeps<StreamFollower> for ReportingStore<'a, K> {
    ghost has_kept = { λ setup old new. K.has_kept setup old.store new.store };

    ghost fits = { λ setup it consumer. K.fits setup it.store consumer };

    fn keep(
        &mut self,
        setup: &FollowSetup,
        alloc: Global,
        consumer: &StreamFollower,
    ) -> Result<(), StoreError> {
        self.store.keep(setup, alloc, consumer)?;
        self.report
            .progress(self.queue, consumer.counts(), consumer.follower().seen());
        Ok(())
    }

    ghost has_kept_none = { λ setup it. K.has_kept_none setup it.store };

    ghost fits_untracked = { λ setup it consumer none. K.fits_untracked setup it.store consumer none };

    ghost fits_on = { λ setup it old new moves. K.fits_on setup it.store old new moves };
}
