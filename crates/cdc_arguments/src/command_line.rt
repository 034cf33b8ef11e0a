//! What the command line can ask for, and usage errors.

ghost use Rattle.std.specs.Prelude.{◌≡◌};
ghost use Rattle.cdc_arguments.specs.Options.{options_fault_number, options_fault_name};

use crate::audit_options::AuditPlan;
use crate::chain_options::ChainPlan;
use crate::consume_options::ConsumePlan;
use crate::follow_options::FollowPlan;
use cdc_deliveries::Asked;
use cdc_plans::{Chances, RunPlan};
use std::alloc::AllocError;
use thiserror::Error;

/// What the arguments ask for.
#[derive(Drop)]
pub enum Options<'a> {
    /// The results of the batches, and the books of the subscribers, of the script in this file; `-` is standard input.
    Books {
        file: &'a str,
        /// Whether standard error reports why each item wasn't accepted.
        explain: bool,
        form: Form,
    },
    /// The messages of the events of the script in this file; `-` is standard input.
    Messages {
        file: &'a str,
        /// The number of the subscriber, from 1, whose queue alone is printed, if one is named.
        queue: Option<usize>,
        form: Form,
    },
    /// The world that the steps of the second file lead to, over the batches of the script in the first; `-` as the
    /// script is standard input. A session waits for `window` events at a time.
    Simulate {
        file: &'a str,
        steps: &'a str,
        /// Whether steps that are refused are skipped; otherwise the first one ends the simulation.
        skips_refused: bool,
        window: usize,
        /// The subscriber whose deliveries are printed instead, if one is named.
        deliveries: Option<Asked>,
        diagnostics: Diagnostics<'a>,
        form: Form,
    },
    /// The same with random steps.
    Random {
        file: &'a str,
        window: usize,
        deliveries: Option<Asked>,
        chances: Chances,
        diagnostics: Diagnostics<'a>,
        form: Form,
    },
    /// The results of the batches, and the books of the subscribers, of the script in this file, which is run on
    /// threads; `-` is standard input. The connector saves its progress in the second file, or in memory if none is
    /// named.
    Run {
        file: &'a str,
        plan: RunPlan,
        progress: Option<&'a str>,
        /// The subscriber whose deliveries are printed instead, if one is named.
        deliveries: Option<Asked>,
        diagnostics: RunDiagnostics,
        form: Form,
    },
    /// Whether the script in the first file is valid, and the step file, if one is named; `-` as the script is
    /// standard input.
    Check {
        file: &'a str,
        steps: Option<&'a str>,
        /// Whether a diagram is asked for, which a check doesn't draw.
        has_diagram: bool,
        form: Form,
    },
    /// The book of the stream of messages in this file; `-` is standard input.
    Follow {
        file: &'a str,
        plan: FollowPlan<'a>,
        form: Form,
    },
    /// Whether the stream of messages in this file can be what a ledger published; `-` is standard input.
    Audit {
        file: &'a str,
        plan: AuditPlan<'a>,
        form: Form,
    },
    /// The queues of the stream of messages in this file, with what came before each message; `-` is standard input.
    Chain {
        file: &'a str,
        plan: ChainPlan<'a>,
    },
    /// The book of a queue of a server that speaks AMQP on standard input and output.
    Consume {
        plan: ConsumePlan<'a>,
        form: Form,
    },
    /// A text on the program itself: help, or its version.
    Explain {
        text: String,
    },
}

/// The form of what is printed.
#[derive(Clone, Copy, PartialEq, Eq)]
pub enum Form {
    Text,
    /// A JSON object in each line.
    Json,
}

/// What standard error reports of a simulation, besides its fault or the step that was refused.
#[derive(Clone, Copy)]
pub struct Diagnostics<'a> {
    /// Whether it reports why each item wasn't accepted.
    pub explain: bool,
    /// Whether it reports what each step did.
    pub trace: bool,
    /// The file that gets the steps as a diagram; `-` is standard error. None if no diagram is asked for.
    pub diagram: Option<&'a str>,
    /// The file that gets the steps as a page of HTML. None if no page is asked for.
    pub page: Option<&'a str>,
    /// The file that gets the steps as a drawing in SVG. None if no drawing is asked for.
    pub svg: Option<&'a str>,
}

/// What standard error reports of a run, besides its fault and the planned faults that never came.
#[derive(Clone, Copy)]
pub struct RunDiagnostics {
    /// Whether it reports why each item wasn't accepted.
    pub explain: bool,
    /// Whether it reports what was lost or sent again, and what came to each subscriber.
    pub trace: bool,
}

/// Why arguments ask for nothing.
#[derive(Debug, Drop, Error)]
pub enum OptionsFault {
    /// A usage error. The message names the argument in error, and what was expected.
    #[error("{message}")]
    BadWords { message: String },
    #[error("out of memory")]
    OutOfMemory,
}

impl OptionsFault {
    /// The fault's number, from 1 to 2.
    pub fn number(&self) -> u8
        ensures { result ≡ options_fault_number self.now }
    {
        match self {
            OptionsFault::BadWords { .. } => 1,
            OptionsFault::OutOfMemory => 2,
        }
    }

    /// The fault's name, such as `out_of_memory`.
    pub fn name(&self) -> &'static str
        ensures { result.now ≡ options_fault_name self.now }
    {
        match self {
            OptionsFault::BadWords { .. } => "bad_words",
            OptionsFault::OutOfMemory => "out_of_memory",
        }
    }
}

impl From<AllocError> for OptionsFault {
    ghost use Rattle.cdc_arguments.specs.declared.command_line.OptionsFault.TheVariants.{OutOfMemory};

    ghost from_gives = { λ _ e. e ≡ OutOfMemory };

    fn from(_error: AllocError) -> OptionsFault {
        OptionsFault::OutOfMemory
    }
}
