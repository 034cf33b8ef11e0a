//! A store for a command that saves nothing.

use cdc_files::StoreError;
use cdc_streams::LogStore;

/// A store that keeps nothing: a later run begins again.
#[derive(Drop)]
pub struct NoState;

impl LogStore for NoState {
    ghost use Rattle.std.specs.Prelude.{None};

    ghost texts = { λ _. None };

    fn replace(&mut self, _text: &[u8]) -> Result<(), StoreError> {
        Ok(())
    }

    fn append(&mut self, _text: &[u8]) -> Result<(), StoreError> {
        Ok(())
    }
}
