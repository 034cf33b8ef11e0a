//! What `simulate` prints as text: the lines of batches, steps, saved progress and subscribers.

ghost use Rattle.std.specs.Prelude.{◌≡◌, ◌++◌, ◌^◌, ◌<◌, IfOk, OnOk, string_bytes};
ghost use Rattle.cdc_commands.specs.SimulationReports.{IsReportOf};
ghost use Rattle.cdc_commands.specs.Simulations.{Stage, progress_line, refusal_line, simulation_text, steps_line};
ghost use Rattle.cdc_commands.specs.Simulations.{subscriptions_text};
ghost use Rattle.cdc_world.specs.Stands.{Stands};
ghost use Rattle.cdc_world.specs.Worlds.{WorldState};

use crate::report::{print_subscriber, push_answers, push_line_end, push_spaced};
use crate::simulations::Simulated;
use cdc_progress::{MemoryStore, Progress};
use cdc_world::{Played, World};
use std::alloc::{AllocError, Global};

/// Prints a simulation of `all` acts.
pub fn print_simulated(
    alloc: Global,
    simulated: &Simulated,
    all: usize,
) -> Result<Vec<u8>, AllocError>
    requires { simulated.now.played.done < 2 ^ 63 }
    ensures { (end : Stage) → IsReportOf end simulated.now → IfOk result (λ text. text.items
        ≡ simulation_text all simulated.now.played.refusal end) }
{
    let mut text = String::new(alloc);
    push_answers(&mut text, simulated.answers.as_slice())?;
    push_steps(&mut text, simulated.played.done, all)?;
    push_refusal(&mut text, simulated.played)?;
    push_progress(&mut text, simulated.held)?;
    let mut bytes = text.into_bytes();
    push_subscriptions(&mut bytes, &simulated.world)?;
    Ok(bytes)
}

/// Adds the line with the numbers of steps done and of all steps.
fn push_steps(text: &mut String, done: usize, all: usize) -> Result<(), AllocError>
    ensures { OnOk result (string_bytes text.new ≡ string_bytes text.old ++ steps_line done all) }
{
    text.push_str("steps")?;
    push_spaced(text, done)?;
    text.push_str(" of")?;
    push_spaced(text, all)?;
    text.push_str("\n")
}

/// Adds the line of the step that was refused, if one was.
fn push_refusal(text: &mut String, played: Played) -> Result<(), AllocError>
    requires { played.done < 2 ^ 63 }
    ensures { OnOk result (string_bytes text.new ≡
        string_bytes text.old ++ refusal_line played.done played.refusal) }
{
    let Some(refusal) = played.refusal else {
        return Ok(());
    };
    text.push_str("refused")?;
    push_spaced(text, played.done + 1)?;
    text.push_str(" ")?;
    push_line_end(text, refusal.name())
}

/// Adds the line of the progress that the store holds.
fn push_progress(text: &mut String, held: Option<Progress>) -> Result<(), AllocError>
    ensures { OnOk result (string_bytes text.new ≡ string_bytes text.old ++ progress_line held) }
{
    let Some(progress) = held else {
        return text.push_str("progress none\n");
    };
    text.push_str("progress")?;
    push_spaced(text, progress.session())?;
    push_spaced(text, progress.timestamp())?;
    text.push_str("\n")
}

/// Adds the lines of the subscribers of a world.
fn push_subscriptions(text: &mut Vec<u8>, world: &World<MemoryStore>) -> Result<(), AllocError>
    ensures { (w : WorldState) → Stands world.now w
        → OnOk result (text.new.items ≡ text.old.items ++ subscriptions_text 1 w.subscriptions) }
{
    for place in 0..world.subscriber_count() {
        print_subscriber(text, world.subscriber(place + 1), place as u64 + 1)?;
    }
    Ok(())
}
