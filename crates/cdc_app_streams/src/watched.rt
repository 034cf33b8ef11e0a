//! A stream that is watched while it is read.

use cdc_app_inputs::Escaped;
use std::alloc::AllocError;
use std::io;
use std::io::{IsTerminal, Read};
use std::time::Instant;

/// The name of the member that names a message's predecessor, as JSON has it.
const PREVIOUS: &[u8] = b"\"previous\"";

/// A stream, and what standard error reports of it while it is read, on the thread that reads it: once, that its first
/// lines have a member `previous`, which nobody reads; and, if standard error is a terminal, each second how many lines
/// were read.
#[derive(Drop)]
pub struct Watched<T> {
    rt: HostRuntime,
    inner: T,
    /// The stream's name, as standard error shows it.
    place: String,
    /// Whether a member `previous` is to be reported. False once the first lines were looked at.
    notices: bool,
    /// Since when the stream is read, if its progress is to be reported.
    start: Option<Instant>,
    /// The lines that were read.
    lines: u64,
    /// The whole seconds that had gone by at the last report.
    seconds: u64,
}

impl<T> Watched<T> {
    /// A stream of which nothing was read. `chained`: the member `previous` is read.
    pub fn new(
        rt: HostRuntime,
        inner: T,
        place: &str,
        chained: bool,
    ) -> Result<Watched<T>, AllocError>
    where
        T: Drop,
    {
        let place = String::from_str(rt.alloc(), place)?;
        let start = if rt.stderr().is_terminal() {
            Instant::now(&rt).ok()
        } else {
            None
        };
        Ok(Watched {
            rt,
            inner,
            place,
            notices: !chained,
            start,
            lines: 0,
            seconds: 0,
        })
    }

    /// Looks at the first bytes that were read, at least one line, for a member `previous`.
    fn look(&mut self, piece: &[u8]) {
        if !self.notices {
            return;
        }
        if piece.windows(PREVIOUS.len()).any(|part| part == PREVIOUS) {
            let place = Escaped(self.place.as_str());
            let _ = eprintln!(self.rt;
                "{place}: lines have previous, which is ignored without --chained"
            );
            self.notices = false;
        } else if piece.contains(&b'\n') {
            self.notices = false;
        }
    }

    /// Counts the lines of bytes that were read, and reports the progress if another second has gone by.
    fn count(&mut self, piece: &[u8]) {
        let Some(start) = self.start else {
            return;
        };
        let feeds = piece.iter().filter(|byte| **byte == b'\n').count();
        self.lines = self.lines.saturating_add(feeds as u64);
        let Ok(elapsed) = start.elapsed(&self.rt) else {
            return;
        };
        let seconds = elapsed.as_secs();
        if seconds > self.seconds {
            self.seconds = seconds;
            let place = Escaped(self.place.as_str());
            let lines = self.lines;
            let rate = lines / seconds;
            let _ = eprintln!(self.rt; "{place}: {lines} lines read, {rate} a second");
        }
    }
}

impl<T: Read> Read for Watched<T> {
    fn read(&mut self, buf: &mut [u8]) -> io::Result<usize> {
        let count = self.inner.read(buf)?;
        self.look(&buf[..count]);
        self.count(&buf[..count]);
        Ok(count)
    }
}
