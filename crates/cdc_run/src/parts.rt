//! The actors of one kind of a run, taken apart once they have finished.

ghost use Rattle.std.specs.Prelude.{IfErr, IfOk};
ghost use Rattle.cdc_run.specs.SettledLinks.{IsRefused};
ghost use Rattle.cdc_run.specs.Parts.{AreActorsOf, AreLeftOf, works_of};

use cdc_actors::{End, Numbered, RunFault};
use std::alloc::Global;

/// Takes actors of a system apart, all of which must have finished. `NotOneSystem`: one is of another system, doesn't
/// have its place's number, isn't finished, or has met a fault. `OutOfMemory`: there was no memory for a list of what
/// they leave.
pub(crate) fn parts_of<W: Numbered + Drop>(
    alloc: Global,
    system: u64,
    ends: Vec<End<W>>,
) -> Result<Vec<W::Parts>, RunFault>
where
    W::Parts: Drop,
    ensures are { IfOk result (λ _. AreActorsOf W.number W.keeps W.is_over system 1 ends.items) }
    ensures parts { IfOk result (λ parts. AreLeftOf W.leaves (works_of ends.items) parts.items) }
    ensures refused { IfErr result
        (IsRefused (AreActorsOf W.number W.keeps W.is_over system 1 ends.items)) }
{
    let mut all = Vec::with_capacity(alloc, ends.len())?;
    for end in ends {
        let number = all.len() as u64 + 1;
        if end.system() != system || end.number() != number {
            return Err(RunFault::NotOneSystem);
        }
        let Some(parts) = end.into_parts() else {
            return Err(RunFault::NotOneSystem);
        };
        all.push_reserved(parts);
    }
    Ok(all)
}
