//! What the ledger actor has received, as its messages name it in contracts only.

use cdc_links::Naming;
use cdc_traffic::Past;
use std::marker::{Brand, PhantomData};

/// Selects what was received: the order of all batches, and the past that they make with the close, if there was one.
pub(crate) trait Reception {
    ghost use Rattle.std.specs.Prelude.{ℕ, List};
    ghost use Rattle.cdc_traffic.specs.declared.pasts.Past.{Past};
    ghost use Rattle.cdc_types.specs.declared.batches.Batch.{Batch};

    ghost order: { List (ℕ × Batch) };

    ghost past: { Past };
}

// Each call selects its own.
impl Reception for Brand {
    ghost use Rattle.std.specs.Prelude.{[]};
    ghost use Rattle.cdc_traffic.specs.Pasts.{no_past};

    ghost order = { [] };

    ghost past = { no_past };
}

/// Names what was received.
pub(crate) struct Under<K> {
    of: PhantomData<K>,
}

// A client gets its reply before any close.
impl<K: Reception> Naming<Past> for Under<K> {
    ghost use Rattle.cdc_ledger_actors.specs.Orders.{past_of};

    ghost name = { past_of K.order };
}

impl<K: Reception> Naming<Option<Past>> for Under<K> {
    ghost use Rattle.std.specs.Prelude.{Some};

    ghost name = { Some K.past };
}
