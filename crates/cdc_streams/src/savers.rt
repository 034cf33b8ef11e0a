//! Saving what takes a stream now and then.

ghost use Rattle.std.specs.Prelude.{◌≡◌, is_some, IfSome, IfErr, IsTrue, not, OnOk};
ghost use Rattle.cdc_streams.specs.Keeping.{KeepsMore};
ghost use Rattle.cdc_streams.specs.Saving.{SavesOne, is_due as due, save_text};

use crate::consumers::Consumer;
use crate::stores::Keeps;
use crate::writing::write_part;
use cdc_output::ProgramFault;
use std::alloc::Global;
use std::io::Write;

/// Saves what takes a stream after some lines, and reports each save.
#[derive(Drop)]
pub struct Saver<K> {
    /// Where it is kept; `None` if it isn't.
    store: Option<K>,
    /// How many lines are taken, at most, before it is saved.
    every: u64,
    /// How many lines were taken since the last save.
    unsaved: u64,
}

impl<K> Saver<K> {
    /// A saver with this store, which saves at the latest after `every` lines.
    pub fn new(store: Option<K>, every: u64) -> Saver<K>
        ensures store { result.store ≡ store }
        ensures every { result.every ≡ every }
        ensures unsaved { result.unsaved ≡ 0 }
    {
        Saver {
            store,
            every,
            unsaved: 0,
        }
    }

    /// Whether to save before the next line is read. `waits`: no whole line has come yet.
    fn is_due(&self, waits: bool) -> bool
        ensures { result ≡ due self.now.every self.now.unsaved waits }
    {
        self.unsaved >= self.every || waits && self.unsaved > 0
    }

    /// Saves if that is due before the next line is read. `waits`: no whole line has come yet.
    pub(crate) fn save_if_due<F, C: Consumer<F>, W: Write>(
        &mut self,
        form: &F,
        alloc: Global,
        writer: &mut W,
        setup: &C::Setup,
        consumer: &mut C,
        waits: bool,
    ) -> Result<(), ProgramFault>
    where
        K: Keeps<C>,
        ensures state { C.state consumer.new ≡ C.state consumer.old }
        ensures saved { IsTrue (due self.old.every self.old.unsaved waits)
            → IfSome self.old.store (λ store. K.fits setup.now store consumer.old)
            → SavesOne (KeepsMore (K.has_kept setup.now) self.old.store self.new.store)
            (W.contents writer.old) (W.contents writer.new) (C.state consumer.old)
            (save_text (C.prints_saved setup.now) (is_some self.old.store) (C.state consumer.old)) result }
        ensures same { IsTrue (not (due self.old.every self.old.unsaved waits))
            → (self.new ≡ self.old) × (consumer.new ≡ consumer.old) × (writer.new ≡ writer.old) }
        ensures fine { IsTrue (not (due self.old.every self.old.unsaved waits)) → IfErr result (λ _. ⊥) }
        ensures fits { IfSome self.old.store (λ store. K.fits setup.now store consumer.old)
            → OnOk result (IfSome self.new.store (λ store. K.fits setup.now store consumer.new)) }
    {
        if self.is_due(waits) {
            self.save(form, alloc, writer, setup, consumer)
        } else {
            Ok(())
        }
    }

    /// Saves, if there is a store, and then reports the save. After an error, the store holds what it held before, and
    /// nothing is reported; or it holds what was given to it, and a part of the report is written.
    pub(crate) fn save<F, C: Consumer<F>, W: Write>(
        &mut self,
        form: &F,
        alloc: Global,
        writer: &mut W,
        setup: &C::Setup,
        consumer: &mut C,
    ) -> Result<(), ProgramFault>
    where
        K: Keeps<C>,
        ensures state { C.state consumer.new ≡ C.state consumer.old }
        ensures saved { IfSome self.old.store (λ store. K.fits setup.now store consumer.old)
            → SavesOne (KeepsMore (K.has_kept setup.now) self.old.store self.new.store)
            (W.contents writer.old) (W.contents writer.new) (C.state consumer.old)
            (save_text (C.prints_saved setup.now) (is_some self.old.store) (C.state consumer.old)) result }
        ensures fits { IfSome self.old.store (λ store. K.fits setup.now store consumer.old)
            → OnOk result (IfSome self.new.store (λ store. K.fits setup.now store consumer.new)) }
    {
        let Some(store) = &mut self.store else {
            return Ok(());
        };
        let line = consumer.saved_text(form, setup, alloc)?;
        store.keep(setup, alloc, consumer)?;
        consumer.begin_changes(alloc);
        self.unsaved = 0;
        write_part(writer, line.as_slice())
    }

    /// Counts a line that was taken.
    pub(crate) fn count_line(&mut self)
        ensures { self.new.store ≡ self.old.store }
    {
        self.unsaved = self.unsaved.saturating_add(1);
    }
}
