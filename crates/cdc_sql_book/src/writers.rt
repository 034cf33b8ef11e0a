//! The writers to which saves are printed.

use std::io::{Print, Printer, Write};

/// A writer of whose kind it is known what each one holds, or of none.
pub trait SteadyWrite: Write {
    ghost use Rattle.std.specs.Prelude.{◌≡◌, None};

    /// If it isn't known what one holds, it isn't known what another one holds.
    ghost steady: { (one other : Self) → Self.contents one ≡ None → Self.contents other ≡ None };
}

impl SteadyWrite for Vec<u8> {
    ghost use Rattle.std.specs.Prelude.{Some};
    ghost use Rattle.cdc_sql_book.specs.Private.Writers.{never_unknown};

    ghost steady = { λ one other none. never_unknown one.items (Some other.items) none };
}

impl<'a, P: Print> SteadyWrite for Printer<'a, P> {
    ghost use Rattle.std.proofs.Common.{refl};

    ghost steady = { λ one other none. refl };
}
