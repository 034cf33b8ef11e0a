//! How a command ends.

ghost use Rattle.std.specs.Prelude.{◌≡◌};
ghost use Rattle.cdc_commands.specs.Outcomes.{refusal_ending, status_of};

use cdc_output::ProgramFault;
use cdc_script::ScriptFault;
use cdc_world::StepError;

/// How a command ended.
#[derive(Clone, Copy)]
pub enum Ending {
    /// The command did all that was asked.
    Done,
    /// The command failed.
    Failed(ProgramFault),
    /// A step of a simulation was refused.
    Refused(StepError),
    /// The script has this fault.
    BadScript(ScriptFault),
    /// The step file has this fault.
    BadSteps(ScriptFault),
    /// The arguments are a usage error.
    BadWords,
}

impl Ending {
    /// The ending of a simulation that stopped at a step refused for this reason, or that did all steps.
    pub fn of_refusal(refusal: Option<StepError>) -> Ending
        ensures { result ≡ refusal_ending refusal }
    {
        match refusal {
            None => Ending::Done,
            Some(why) => Ending::Refused(why),
        }
    }

    /// The exit status of the program: 0, 1 or 2.
    pub fn status(self) -> u8
        ensures { result ≡ status_of self }
    {
        match self {
            Ending::Done => 0,
            Ending::Failed(_) | Ending::Refused(_) => 1,
            Ending::BadScript(_) | Ending::BadSteps(_) | Ending::BadWords => 2,
        }
    }
}
