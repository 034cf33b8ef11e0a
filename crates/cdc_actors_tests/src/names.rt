//! Names of messages.

use cdc_links::Naming;
use cdc_traffic::Past;

/// Names a message that names nothing.
pub struct Nothing;

impl Naming<()> for Nothing {
    ghost name = { tt };
}

impl Naming<Option<Past>> for Nothing {
    ghost use Rattle.std.specs.Prelude.{None};

    ghost name = { None };
}
