//! The text of a place.

ghost use Rattle.std.specs.Prelude.{◌≡◌, ◌++◌, codes, decimal, OnOk};
ghost use Rattle.cdc_codec.specs.Texts as spec;
ghost use Rattle.cdc_codec.specs.Texts.{flagged};
ghost use Rattle.cdc_sql.specs.Texts.{columns_text, position_text};

use crate::pieces::{push, push_bytes, push_named};
use crate::places::Place;
use std::alloc::AllocError;

/// A space, and yes or no.
fn yes_or_no(flag: bool) -> &'static str
    ensures { result.now ≡ spec.yes_or_no flag }
{
    if flag { " yes" } else { " no" }
}

/// Adds a name, and yes or no.
fn push_flagged(text: &mut Vec<u8>, name: &str, flag: bool) -> Result<(), AllocError>
    ensures { OnOk result (text.new.items ≡ text.old.items ++ flagged name.now flag) }
{
    push(text, name)?;
    push(text, yes_or_no(flag))
}

/// Adds the part of a position that the subscriber has.
fn push_subscriber(text: &mut Vec<u8>, place: Place) -> Result<(), AllocError>
    ensures { OnOk result (text.new.items ≡ text.old.items
        ++ ((codes "\nsubscriber 1 applied " ++ decimal place.applied) ++ ((codes " last " ++ decimal place.last)
        ++ (flagged (codes " ended") place.ended ++ flagged (codes " closed") place.closed)))) }
{
    push_named(text, "\nsubscriber 1 applied ", place.applied)?;
    push_named(text, " last ", place.last)?;
    push_flagged(text, " ended", place.ended)?;
    push_flagged(text, " closed", place.closed)
}

/// Adds the position at a place: the text of a saved book that has no accounts, without its last line feed.
pub(crate) fn push_position(
    text: &mut Vec<u8>,
    chained: bool,
    binding: &[u8],
    place: Place,
) -> Result<(), AllocError>
    ensures { OnOk result (text.new.items ≡ text.old.items ++ position_text chained binding.now place) }
{
    push_flagged(text, "book 1 chained", chained)?;
    push_named(text, " seen ", place.seen)?;
    push(text, "\nbinding ")?;
    push_bytes(text, binding)?;
    push_subscriber(text, place)
}

/// Adds the columns of the book's row whose values are numbers, each after this text.
fn push_numbers(text: &mut Vec<u8>, between: &str, place: Place) -> Result<(), AllocError>
    ensures { OnOk result (text.new.items ≡ text.old.items ++ (between.now
        ++ ((codes "seen = " ++ decimal place.seen) ++ (between.now ++ ((codes "last = " ++ decimal place.last)
        ++ (between.now ++ (codes "applied = " ++ decimal place.applied))))))) }
{
    push(text, between)?;
    push_named(text, "seen = ", place.seen)?;
    push(text, between)?;
    push_named(text, "last = ", place.last)?;
    push(text, between)?;
    push_named(text, "applied = ", place.applied)
}

/// Adds each column of the book's row at a place, and its value. `between`: what stands between two columns.
pub(crate) fn push_columns(
    text: &mut Vec<u8>,
    between: &str,
    chained: bool,
    binding: &[u8],
    place: Place,
) -> Result<(), AllocError>
    ensures { OnOk result (text.new.items
        ≡ text.old.items ++ columns_text between.now chained binding.now place) }
{
    push(text, "position = '")?;
    push_position(text, chained, binding, place)?;
    push(text, "'")?;
    push_numbers(text, between, place)
}
