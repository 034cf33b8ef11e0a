//! How often an endpoint that waits looks again before it sleeps.

/// How often a receiver that has to wait looks for a message before it sleeps. If another CPU is at work on the
/// answer, that comes sooner than a sleeper wakes; if the answer needs this very CPU, each look delays it. So an
/// endpoint looks twice as often after a look that has paid, and half as often, or never, after a sleep.
#[derive(Clone, Copy)]
pub(crate) struct Patience {
    looks: u32,
    sleeps: u32,
}

// This many looks take about as long as it takes to put a thread to sleep and wake it. With this many, the endpoint
// tries whether looking pays, and a trial in vain costs about as much CPU time as the sleep.
const TRIED_LOOKS: u32 = 256;

// The answer to a message mostly needs the work of several actors, and so several times as long as waking a thread.
// An endpoint gets to this many looks only by looks that have paid, and the first sleep halves them.
const MOST_LOOKS: u32 = 1024;

// After this many sleeps the endpoint tries again whether looking pays.
const SLEEPS_UNTIL_TRIED: u32 = 64;

impl Patience {
    /// The patience of a new endpoint. An actor that several others send to is between them, and they wait for it.
    /// One with a single sender is the last on its way: it leaves the CPU to the others, and never looks.
    pub(crate) fn new(senders: usize) -> Patience {
        Patience {
            looks: if senders > 1 { TRIED_LOOKS } else { 0 },
            sleeps: 0,
        }
    }

    /// How often to look before the next sleep.
    pub(crate) fn looks(&self) -> u32 {
        self.looks
    }

    /// A message came while the endpoint looked.
    pub(crate) fn note_found(&mut self) {
        self.looks = self.looks.saturating_mul(2).min(MOST_LOOKS);
    }

    /// No message came, and the endpoint sleeps. One that looks at all does so at least once.
    pub(crate) fn note_sleep(&mut self) {
        if self.looks == 0 {
            return;
        }
        self.sleeps = self.sleeps.wrapping_add(1);
        self.looks = if self.sleeps.is_multiple_of(SLEEPS_UNTIL_TRIED) {
            TRIED_LOOKS
        } else {
            self.looks.div_ceil(2)
        };
    }
}
