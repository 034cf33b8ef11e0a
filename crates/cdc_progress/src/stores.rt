//! The contract of a progress store.

ghost use Rattle.std.specs.Prelude.{◌≡◌, ◌⊎◌, ℕ, Bool, Option, Some, Err, IfOk, IfErr, OnOk, OnErr, IsTrue};
ghost use Rattle.cdc_progress.specs.Records.{Saved};
ghost use Rattle.cdc_progress.specs.Stores.{IsRisked, MayRefuseLoad, MayRefuseSave, Risks};

use crate::progress::Progress;
use cdc_files::StoreError;

/// Holds the progress record of a connector across the connector's restarts.
pub trait ProgressStore {
    // The record that is held, if there is one.
    ghost held: { Self → Option Saved };

    // How often a read or a write has failed. Only those two faults change it.
    ghost failed: { Self → ℕ };

    // Whether a load returns what is held. If it doesn't, each load is refused. No call changes it.
    ghost is_honest: { Self → Bool };

    // The reasons why a load or a save can be refused at all. No call changes them.
    ghost risks: { Self → Risks };

    /// Returns the record that is held, or `None` if nothing was saved yet.
    ///
    /// A refused load doesn't change what is held. `ReadFault`: it can't be read; only this error adds to `failures`.
    /// `BadRecord`: it is not a record; an honest store never returns this. `OutOfMemory`: memory ran out. A store that
    /// isn't honest refuses each load.
    fn load(&mut self) -> Result<Option<Progress>, StoreError>
        ensures given { IfOk result (λ given. held self.new ≡ given) }
        ensures honest_load { IsTrue (is_honest self.old)
            → IfOk result (λ given. given ≡ held self.old) }
        ensures honest_record { IsTrue (is_honest self.old)
            → ¬ (result ≡ Err StoreError.BadRecord) }
        ensures loads { OnOk result (IsTrue (is_honest self.old)) }
        ensures refused { OnErr result (held self.new ≡ held self.old) }
        ensures refusals { IfErr result (MayRefuseLoad (failed self.old) (failed self.new)) }
        ensures uncounted { OnOk result (failed self.new ≡ failed self.old) }
        ensures honest { is_honest self.new ≡ is_honest self.old }
        ensures risked { IfErr result (IsRisked (risks self.old)) }
        ensures same_risks { risks self.new ≡ risks self.old };

    /// Replaces the record that is held.
    ///
    /// `WriteFault`: it can't be written; only this error adds to `failures`. The store then holds the old record or
    /// the new one. `OutOfMemory`: memory ran out, and the store holds the old record.
    fn save(&mut self, progress: Progress) -> Result<(), StoreError>
        ensures saved { OnOk result (held self.new ≡ Some progress) }
        ensures refused { OnErr result
            ((held self.new ≡ held self.old) ⊎ (held self.new ≡ Some progress)) }
        ensures without_memory { result ≡ Err StoreError.OutOfMemory
            → held self.new ≡ held self.old }
        ensures refusals { IfErr result (MayRefuseSave (failed self.old) (failed self.new)) }
        ensures uncounted { OnOk result (failed self.new ≡ failed self.old) }
        ensures honest { is_honest self.new ≡ is_honest self.old }
        ensures risked { IfErr result (IsRisked (risks self.old)) }
        ensures same_risks { risks self.new ≡ risks self.old };

    /// How often a read or a write has failed. The count saturates at 2^64-1.
    fn failures(&self) -> u64
        ensures { result ≡ failed self.now };
}
