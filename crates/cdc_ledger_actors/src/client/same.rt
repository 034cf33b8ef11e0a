//! Equality of batches.

ghost use Rattle.std.specs.Prelude.{◌≡◌, ◌↔◌, IsTrue};

use cdc_types::Batch;

/// Whether two batches are equal, item by item.
pub(crate) fn same_batch(one: &Batch, other: &Batch) -> bool
    ensures { IsTrue result ↔ (one.now ≡ other.now) }
{
    match (one, other) {
        (
            Batch::Accounts { now, items },
            Batch::Accounts {
                now: at,
                items: others,
            },
        ) => { *now == *at && items.as_slice() == others.as_slice() }
        (
            Batch::Transfers { now, items },
            Batch::Transfers {
                now: at,
                items: others,
            },
        ) => { *now == *at && items.as_slice() == others.as_slice() }
        (Batch::Pulse { now }, Batch::Pulse { now: at }) => *now == *at,
        _ => false,
    }
}
