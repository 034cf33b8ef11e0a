//! What `simulate` prints as JSON.

ghost use Rattle.std.specs.Prelude.{◌≡◌, ◌++◌, ◌^◌, ◌<◌, IfOk, OnOk, map};
ghost use Rattle.cdc_subscriber.specs.Reception.{kept_of};
ghost use Rattle.cdc_world.specs.Stands.{Stands};
ghost use Rattle.cdc_world.specs.Worlds.{WorldState};
ghost use Rattle.cdc_commands.specs.SimulationReports.{IsReportOf};
ghost use Rattle.cdc_commands.specs.Simulations.{Stage};
ghost use Rattle.cdc_output.specs.Lines.{json_line, json_lines, kept_values};
ghost use Rattle.cdc_commands.specs.JsonValues.{progress_value, refusal_values, steps_value};
ghost use Rattle.cdc_commands.specs.JsonValues.{held_value};
ghost use Rattle.cdc_commands.specs.JsonReports.{simulation_values};
ghost use Rattle.cdc_output.specs.Private.Sending.{field_value};

use super::batches::push_answers;
use crate::simulations::Simulated;
use cdc_output::Field::{Number, Text, Wide};
use cdc_output::{Field, Lines, Member, push_subscriber};
use cdc_progress::{MemoryStore, Progress};
use cdc_world::{Played, World};
use std::alloc::{AllocError, Global};

/// The lines of a simulation of `all` acts.
pub(crate) fn simulation_lines(
    alloc: Global,
    simulated: &Simulated,
    all: usize,
) -> Result<Lines, AllocError>
    requires { simulated.now.played.done < 2 ^ 63 }
    ensures { (end : Stage) → IsReportOf end simulated.now → IfOk result (λ lines. lines.text.items
        ≡ json_lines (simulation_values all simulated.now.played.refusal end)) }
{
    let mut lines = Lines::new(alloc);
    push_answers(alloc, &mut lines, simulated.answers.as_slice())?;
    push_steps(alloc, &mut lines, simulated.played.done, all)?;
    push_refusal(alloc, &mut lines, simulated.played)?;
    push_progress(alloc, &mut lines, simulated.held)?;
    push_subscriptions(alloc, &mut lines, &simulated.world)?;
    Ok(lines)
}

/// Adds the line with the numbers of steps done and of all steps.
fn push_steps(alloc: Global, lines: &mut Lines, done: usize, all: usize) -> Result<(), AllocError>
    ensures { OnOk result (lines.new.text.items
        ≡ lines.old.text.items ++ json_line (steps_value done all)) }
{
    lines.push(
        alloc,
        "steps",
        &[
            Member("done", Number(done as u64)),
            Member("of", Number(all as u64)),
        ],
    )
}

/// Adds the line of the step that was refused, if one was.
fn push_refusal(alloc: Global, lines: &mut Lines, played: Played) -> Result<(), AllocError>
    requires { played.done < 2 ^ 63 }
    ensures { OnOk result (lines.new.text.items
        ≡ lines.old.text.items ++ json_lines (refusal_values played.done played.refusal)) }
{
    let Some(refusal) = played.refusal else {
        return Ok(());
    };
    lines.push(
        alloc,
        "refused_step",
        &[
            Member("step", Number(played.done as u64 + 1)),
            Member("name", Text(refusal.name())),
        ],
    )
}

/// Adds the line of the progress that the store holds.
fn push_progress(alloc: Global, lines: &mut Lines, held: Option<Progress>) -> Result<(), AllocError>
    ensures { OnOk result (lines.new.text.items
        ≡ lines.old.text.items ++ json_line (progress_value held)) }
{
    match held {
        None => push_held(alloc, lines, Field::Null, Field::Null),
        Some(progress) => {
            let (session, timestamp) = (progress.session(), progress.timestamp());
            push_held(
                alloc,
                lines,
                Field::Wide(session.into()),
                Field::Wide(timestamp.into()),
            )
        }
    }
}

/// Adds the line of a session and a timestamp, which may be null.
fn push_held<'a>(
    alloc: Global,
    lines: &mut Lines,
    session: Field<'a>,
    timestamp: Field<'a>,
) -> Result<(), AllocError>
    ensures { OnOk result (lines.new.text.items ≡ lines.old.text.items
        ++ json_line (held_value (field_value session.entry) (field_value timestamp.entry))) }
{
    lines.push(
        alloc,
        "progress",
        &[Member("session", session), Member("timestamp", timestamp)],
    )
}

/// Adds the lines of the subscribers of a world.
fn push_subscriptions(
    alloc: Global,
    lines: &mut Lines,
    world: &World<MemoryStore>,
) -> Result<(), AllocError>
    ensures { (w : WorldState) → Stands world.now w
        → OnOk result (lines.new.text.items ≡ lines.old.text.items
        ++ json_lines (kept_values 1 (map (λ s. kept_of s.reception) w.subscriptions))) }
{
    for place in 0..world.subscriber_count() {
        push_subscriber(alloc, lines, place as u64 + 1, world.subscriber(place + 1))?;
    }
    Ok(())
}
