//! Names for the places of a run in diagnostics.

use cdc_run::Place;
use std::fmt;
use std::fmt::{Formatter, Write};

/// A place as diagnostics name it.
#[derive(Clone, Copy)]
pub struct Shown(pub Place);

impl fmt::Display for Shown {
    fn fmt<W: Write>(&self, f: &mut Formatter<W>) -> fmt::Result {
        match self.0 {
            Place::Ledger => f.write_str("the ledger"),
            Place::Client(number) => write!(f, "client {number}"),
            Place::Connector => f.write_str("the connector"),
            Place::Broker => f.write_str("the broker"),
            Place::Subscriber(number) => write!(f, "subscriber {number}"),
        }
    }
}
