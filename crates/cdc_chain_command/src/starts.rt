//! Where a chain begins: before the first event, or at the places of a saved state.

ghost use Rattle.std.specs.Prelude.{◌≡◌, ◌⊎◌, ℕ, List, Some, None, true, IfErr, IfOk, IfSome, IsSomeAnd, length, map};
ghost use Rattle.std.specs.List.{AllByRecursion};
ghost use Rattle.cdc_chain.specs.Chains.{begins};
ghost use Rattle.cdc_chain_command.specs.Logs.{Fits, IsLogText, IsRead, Saved, last_saved};
ghost use Rattle.cdc_chain_command.specs.Resuming.{IsNoState, IsRefused, IsResumed, IsResumedText};
ghost use Rattle.cdc_chain_command.specs.States.{are_of as all_of};

use crate::logs::read_log;
use crate::reading::read_state;
use crate::states::ChainSetup;
use cdc_bindings::is_of;
use cdc_chain::Chain;
use cdc_files::StoreError;
use cdc_match::Binding;
use std::alloc::{AllocError, Global};

/// Whether these are the texts of bindings that mean the same as these ones, in their order.
fn are_of(alloc: Global, bindings: &[Binding], texts: &[Vec<u8>]) -> Result<bool, AllocError>
    ensures { IfOk result (λ same. same ≡ all_of bindings.now (map (λ t. t.items) texts.now)) }
{
    if bindings.len() != texts.len() {
        return Ok(false);
    }
    for place in 0..bindings.len() {
        if !is_of(alloc, texts[place].as_slice(), &bindings[place])? {
            return Ok(false);
        }
    }
    Ok(true)
}

/// The chain of the log of saved states with this text, whose torn end is ignored. `None`: it is no text of a log of
/// states of queues whose bindings mean the same as these, in their order.
fn resume_log(alloc: Global, text: &[u8], bindings: &[Binding]) -> Result<Option<Chain>, AllocError>
    ensures places { IfOk result (λ read. IfSome read (λ chain. length chain.places ≡ length bindings.now)) }
    ensures resumed { IfOk result (λ read. IfSome read (λ chain. (names : List (List ℕ))
        × IsRead (length bindings.now) text.now (record { names = names; state = chain })
        × (all_of bindings.now names ≡ true) × (chain.duplicates ≡ 0))) }
    ensures all { (first : Saved) (later : List Saved) (torn : List ℕ) → Fits (length bindings.now) first
        → AllByRecursion (Fits (length bindings.now)) later
        → all_of bindings.now (last_saved first later).names ≡ true → IsLogText text.now first later torn
        → IfOk result (λ read. read ≡ Some (last_saved first later).state) }
{
    let Some(saved) = read_log(alloc, text, bindings.len())? else {
        return Ok(None);
    };
    if are_of(alloc, bindings, saved.texts.as_slice())? {
        Ok(Some(saved.chain))
    } else {
        Ok(None)
    }
}

/// The chain of a saved state with this text, which is no log. `BadRecord`: it is no text of a state of queues whose
/// bindings mean the same as these, in their order.
fn resume_text(alloc: Global, text: &[u8], bindings: &[Binding]) -> Result<Chain, StoreError>
    ensures places { IfOk result (λ chain. length chain.places ≡ length bindings.now) }
    ensures resumed { IfOk result (IsResumedText bindings.now text.now) }
    ensures refused { IfErr result (λ error. (error ≡ StoreError.OutOfMemory)
        ⊎ ((error ≡ StoreError.BadRecord) × IsNoState bindings.now text.now)) }
{
    let Some(saved) = read_state(alloc, text, bindings.len())? else {
        return Err(StoreError::BadRecord);
    };
    if are_of(alloc, bindings, saved.texts.as_slice())? {
        Ok(saved.chain)
    } else {
        Err(StoreError::BadRecord)
    }
}

/// The chain of a saved state with this text: that of a log, or of the state alone, as earlier versions saved it.
/// `BadRecord`: it is neither, or one of queues whose bindings don't mean the same as these, in their order.
fn resume(alloc: Global, text: &[u8], bindings: &[Binding]) -> Result<Chain, StoreError>
    ensures places { IfOk result (λ chain. length chain.places ≡ length bindings.now) }
    ensures resumed { IfOk result (IsResumed bindings.now text.now) }
    ensures all { (first : Saved) (later : List Saved) (torn : List ℕ) → Fits (length bindings.now) first
        → AllByRecursion (Fits (length bindings.now)) later
        → all_of bindings.now (last_saved first later).names ≡ true → IsLogText text.now first later torn
        → IfOk result (λ chain. chain ≡ (last_saved first later).state) }
    ensures refused { IfErr result (IsRefused bindings.now text.now) }
{
    let logged = resume_log(alloc, text, bindings)?;
    match logged {
        Some(chain) => Ok(chain),
        None => resume_text(alloc, text, bindings),
    }
}

/// The chain of these queues: from the saved state with this text, or before the first event if there is none. No
/// duplicate was skipped yet. `BadRecord`: it is no text of a state of queues whose bindings mean the same as these, in
/// their order.
pub fn start(alloc: Global, text: &Option<Vec<u8>>, setup: &ChainSetup) -> Result<Chain, StoreError>
    ensures places { IfOk result (λ chain. length chain.places ≡ length setup.now.bindings.items) }
    ensures begins { text.now ≡ None → IfOk result (λ chain. chain ≡ begins setup.now.bindings.items) }
    ensures resumed { IfSome text.now (λ t. IfOk result (IsResumed setup.now.bindings.items t.items)) }
    ensures all { (first : Saved) (later : List Saved) (torn : List ℕ)
        → Fits (length setup.now.bindings.items) first
        → AllByRecursion (Fits (length setup.now.bindings.items)) later
        → all_of setup.now.bindings.items (last_saved first later).names ≡ true
        → IfSome text.now (λ t. IsLogText t.items first later torn
        → IfOk result (λ chain. chain ≡ (last_saved first later).state)) }
    ensures refused { IfErr result (λ error. (error ≡ StoreError.OutOfMemory)
        ⊎ IsSomeAnd text.now (λ t. IsRefused setup.now.bindings.items t.items error)) }
{
    match text {
        Some(text) => resume(alloc, text.as_slice(), setup.bindings.as_slice()),
        None => Ok(Chain::new(alloc, setup.bindings.as_slice())?),
    }
}
