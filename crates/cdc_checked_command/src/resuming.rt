//! How checked following goes on from a saved state.

ghost use Rattle.std.specs.Prelude.{◌≡◌, ℕ, List, IfOk, IfErr, true};
ghost use Rattle.cdc_bindings.specs.Bindings.{is_of as is_text_of};
ghost use Rattle.cdc_checked_follow.specs.Checking.{CheckedState};
ghost use Rattle.cdc_checked_follow.specs.Standing.{CheckedFollowerState, StandsFor};
ghost use Rattle.cdc_checked_state.specs.Logs.{CanBeReplayed, IsLogText, checked_all};
ghost use Rattle.cdc_checked_state.specs.Saveable.{CanBeSaved};
ghost use Rattle.cdc_checked_command.specs.Resuming.{IsRefused, IsResumed};

use cdc_bindings::is_of as is_text_of_binding;
use cdc_checked_follow::CheckedFollower;
use cdc_checked_state::read_log;
use cdc_files::StoreError;
use cdc_keys::HashKey;
use cdc_match::Binding;
use std::alloc::Global;

/// The follower of a saved state with this text, which hashes ids with this key. The text is that of a log, whose torn
/// end is ignored. `BadRecord`: it isn't, or the state is that of a binding that doesn't mean the same as this one. It
/// may have begun by baseline.
pub fn resume(
    alloc: Global,
    key: HashKey,
    text: &[u8],
    binding: &Binding,
) -> Result<CheckedFollower, StoreError>
    ensures resumed { IfOk result (IsResumed binding.now text.now) }
    ensures all { (saved : List ℕ) (base : CheckedFollowerState) (records : List (List ℕ)) (torn : List ℕ)
        (state : CheckedState) → is_text_of binding.now saved ≡ true → CanBeSaved saved base
        → IsLogText text.now saved base records torn
        → StandsFor binding.now base state → CanBeReplayed state records torn
        → IfOk result (λ follower. StandsFor binding.now follower (checked_all state records)) }
    ensures refused { IfErr result (IsRefused binding.now text.now) }
{
    let Some(saved) = read_log(alloc, key, text, binding)? else {
        return Err(StoreError::BadRecord);
    };
    if is_text_of_binding(alloc, saved.binding.as_slice(), binding)? {
        Ok(saved.follower)
    } else {
        Err(StoreError::BadRecord)
    }
}
