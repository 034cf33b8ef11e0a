//! Which refusal of a step corresponds to a refusal of one of the actors.

use crate::steps::StepError;
use cdc_ledger::BatchError;
use cdc_progress::StoreError;
use cdc_publisher::StartError;
use std::alloc::AllocError;

impl From<BatchError> for StepError {
    ghost use Rattle.std.specs.Prelude.{◌≡◌};
    ghost use Rattle.cdc_world.specs.Refusals.{batch_refusal};

    ghost from_gives = { λ why e. e ≡ batch_refusal why };

    fn from(why: BatchError) -> StepError {
        match why {
            BatchError::OutOfMemory => StepError::OutOfMemory,
            _ => StepError::Refused(why),
        }
    }
}

impl From<StoreError> for StepError {
    ghost use Rattle.std.specs.Prelude.{◌≡◌};
    ghost use Rattle.cdc_world.specs.Refusals.{store_refusal};

    ghost from_gives = { λ why e. e ≡ store_refusal why };

    fn from(why: StoreError) -> StepError {
        StepError::from(StartError::from(why))
    }
}

impl From<StartError> for StepError {
    ghost use Rattle.std.specs.Prelude.{◌≡◌};
    ghost use Rattle.cdc_world.specs.Refusals.{start_refusal};

    ghost from_gives = { λ why e. e ≡ start_refusal why };

    fn from(why: StartError) -> StepError {
        match why {
            StartError::Store(error) => StepError::Store(error),
            StartError::SessionsExhausted => StepError::SessionsExhausted,
            StartError::OutOfMemory => StepError::OutOfMemory,
            StartError::StartNotAllowed => StepError::StartNotAllowed,
        }
    }
}

impl From<AllocError> for StepError {
    ghost use Rattle.std.specs.Prelude.{◌≡◌};
    ghost use Rattle.cdc_world.specs.declared.steps.StepError.TheVariants.{OutOfMemory};

    ghost from_gives = { λ _ e. e ≡ OutOfMemory };

    fn from(_error: AllocError) -> StepError {
        StepError::OutOfMemory
    }
}
