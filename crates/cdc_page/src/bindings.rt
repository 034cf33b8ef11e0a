//! Copies of bindings.

ghost use Rattle.std.specs.Prelude.{◌≡◌, IfOk};

use cdc_match::Binding;
use std::alloc::{AllocError, Global};

/// Copies of these bindings, in order.
pub(crate) fn copied(alloc: Global, bindings: &[Binding]) -> Result<Vec<Binding>, AllocError>
    ensures { IfOk result (λ copies. copies.items ≡ bindings.now) }
{
    let mut copies = Vec::new(alloc);
    for binding in bindings {
        copies.push(binding.try_copy(alloc)?)?;
    }
    Ok(copies)
}
