//! A follower's book, of which each save is printed as the text of a transaction.

ghost use Rattle.std.specs.Prelude.{◌≡◌, ◌+◌, ◌==◌, false, true, is_some, length, if◌then◌else◌, IfOk, IsTrue, OnErr, OnOk};
ghost use Rattle.std.specs.Io.KnownBytes.{Appends};
ghost use Rattle.cdc_streams.specs.Saving.{PrintsPart};
ghost use Rattle.cdc_sql.specs.Plain.{is_plain as is_plain_text};
ghost use Rattle.cdc_sql.specs.Saves.{save_between};
ghost use Rattle.cdc_sql.specs.Texts.{transaction_text as text_of};
ghost use Rattle.cdc_sql_book.specs.Private.Printing.{IsNext};

use crate::followers::SqlFollower;
use crate::recorded::Recorded;
use crate::writers::SteadyWrite;
use cdc_files::StoreError;
use cdc_follow_command::FollowSetup;
use cdc_sql::{Place, Recent, SchemaName, is_plain, transaction_text};
use cdc_streams::{Keeps, write_part};
use std::alloc::Global;

/// A follower's book in a database. Each save is printed as the text of a transaction, with what was applied since the
/// one before. The first one begins where the follower resumed, with an empty book. After a write that failed, nothing
/// more is printed.
#[derive(Drop)]
pub struct SqlBook<W> {
    writer: W,
    /// The name of the schema.
    name: SchemaName,
    /// Whether the events are printed, too.
    keeps_events: bool,
    /// Where the follower began.
    start: Place,
    /// Where it was when it was saved last.
    place: Place,
    /// How many bytes the texts of all saves have.
    printed: u64,
    /// A write failed, so that a part of a text may have been printed.
    is_torn: bool,
}

/// Whether two places are the same.
fn is_same(one: Place, other: Place) -> bool
    ensures { IsTrue result → one ≡ other }
{
    one == other
}

/// Whether a follower keeps events.
fn keeps_events(recorded: &Recorded) -> bool
    ensures { result ≡ is_some recorded.now.events }
{
    recorded.recent().keeps_events()
}

impl<W: SteadyWrite> SqlBook<W> {
    ghost use Rattle.cdc_sql_book.specs.Private.Printing.{IsRefused, SaveText};

    /// The saves of a follower that begins at this place, in the schema of this name, printed to this writer.
    /// `keeps_events`: with the events that it applies.
    pub fn new(writer: W, name: SchemaName, keeps_events: bool, start: Place) -> SqlBook<W>
        ensures writer { result.writer ≡ writer }
        ensures name { result.name ≡ name }
        ensures events { result.keeps_events ≡ keeps_events }
        ensures start { result.start ≡ start }
        ensures place { result.place ≡ start }
        ensures printed { result.printed ≡ 0 }
        ensures whole { result.is_torn ≡ false }
    {
        SqlBook {
            writer,
            name,
            keeps_events,
            start,
            place: start,
            printed: 0,
            is_torn: false,
        }
    }

    /// Where the next save begins.
    fn next_place(&self) -> Place
        ensures { result ≡ (if self.now.printed == 0 then self.now.start else self.now.place) }
    {
        if self.printed == 0 {
            self.start
        } else {
            self.place
        }
    }

    /// Whether a follower has kept what it has applied since that place.
    fn is_next(&self, recorded: &Recorded) -> bool
        ensures { IsTrue result → IsNext self.now recorded.now }
    {
        (self.printed == 0 || recorded.is_saved())
            && is_same(recorded.base(), self.next_place())
            && self.keeps_events == keeps_events(recorded)
    }

    /// The text of a save of what was applied between two places. `BadRecord`: the text of the binding isn't plain.
    fn text(
        &self,
        setup: &FollowSetup,
        alloc: Global,
        before: Place,
        after: Place,
        recent: &Recent,
    ) -> Result<Vec<u8>, StoreError>
        ensures text { IfOk result (λ text. text.items ≡ text_of self.now.name.text.items setup.now.rules.chained
            setup.now.binding_text.items (save_between before after recent.now)) }
        ensures plain { IfOk result (λ _. is_plain_text setup.now.binding_text.items ≡ true) }
    {
        let binding = setup.binding_text.as_slice();
        if !is_plain(binding) {
            return Err(StoreError::BadRecord);
        }
        let chained = setup.rules.chained;
        let text = transaction_text(alloc, &self.name, chained, binding, before, after, recent)?;
        Ok(text)
    }

    /// Prints a text.
    fn print(&mut self, text: &[u8]) -> Result<(), StoreError>
        ensures printed { OnOk result (Appends (W.contents self.old.writer) (W.contents self.new.writer) text.now) }
        ensures part { OnErr result (PrintsPart (W.contents self.old.writer) (W.contents self.new.writer) text.now) }
        ensures torn { OnErr result (self.new.is_torn ≡ true) }
        ensures whole { OnOk result (self.new.is_torn ≡ self.old.is_torn) }
        ensures name { self.new.name ≡ self.old.name }
        ensures events { self.new.keeps_events ≡ self.old.keeps_events }
        ensures start { self.new.start ≡ self.old.start }
        ensures count { self.new.printed ≡ self.old.printed }
    {
        match write_part(&mut self.writer, text) {
            Ok(()) => Ok(()),
            Err(_fault) => {
                self.is_torn = true;
                Err(StoreError::WriteFault)
            }
        }
    }

    /// Prints the save of what was applied between two places.
    fn save(
        &mut self,
        setup: &FollowSetup,
        alloc: Global,
        before: Place,
        after: Place,
        recent: &Recent,
    ) -> Result<(), StoreError>
        ensures printed { OnOk result (Appends (W.contents self.old.writer) (W.contents self.new.writer)
            (SaveText setup.now self.old (save_between before after recent.now))) }
        ensures count { OnOk result (self.new.printed
            ≡ self.old.printed + length (SaveText setup.now self.old (save_between before after recent.now))) }
        ensures place { OnOk result (self.new.place ≡ after) }
        ensures whole { OnOk result (self.new.is_torn ≡ self.old.is_torn) }
        ensures plain { OnOk result (is_plain_text setup.now.binding_text.items ≡ true) }
        ensures name { OnOk result (self.new.name ≡ self.old.name) }
        ensures events { OnOk result (self.new.keeps_events ≡ self.old.keeps_events) }
        ensures start { OnOk result (self.new.start ≡ self.old.start) }
        ensures refused { OnErr result (IsRefused W.contents setup.now self.old self.new
            (SaveText setup.now self.old (save_between before after recent.now))) }
    {
        let text = self.text(setup, alloc, before, after, recent)?;
        // (no run prints so many bytes)
        let Some(printed) = self.printed.checked_add(text.len() as u64) else {
            return Err(StoreError::WriteFault);
        };
        self.print(text.as_slice())?;
        self.printed = printed;
        self.place = after;
        Ok(())
    }
}

impl<W: SteadyWrite> Keeps<SqlFollower> for SqlBook<W> {
    ghost use Rattle.cdc_sql_book.specs.Books.{HasPrinted};
    ghost use Rattle.cdc_sql_book.specs.Private.Printing.{FitsSql, fits_new, goes_on, printed_none};

    ghost has_kept = { HasPrinted W.contents };

    ghost fits = { FitsSql W.contents };

    fn keep(
        &mut self,
        setup: &FollowSetup,
        alloc: Global,
        consumer: &SqlFollower,
    ) -> Result<(), StoreError> {
        let recorded = consumer.recorded();
        if self.is_torn {
            return Err(StoreError::WriteFault);
        }
        // (a run saves what was applied since its last save)
        if !self.is_next(recorded) {
            return Err(StoreError::BadRecord);
        }
        let after = Place::of(recorded.follower());
        self.save(setup, alloc, self.next_place(), after, recorded.recent())
    }

    ghost has_kept_none = { printed_none W.contents };

    ghost fits_untracked = { fits_new W.contents };

    ghost fits_on = { goes_on W.contents };
}
