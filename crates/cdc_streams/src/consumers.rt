//! What takes a stream.

ghost use Rattle.std.specs.Prelude.{◌≡◌, ℕ, List, IfOk, IfSome, OnErr, OnOk};
ghost use Rattle.cdc_streams.specs.Taking.{LeadsOn};

use crate::stores::Saved;
use cdc_follow::FollowError;
use std::alloc::{AllocError, Global};
use std::io::BufRead;

/// What takes the lines of a stream, one after another, up to the one at which it stops; and what is printed of each
/// save and at the end, in forms of type `F`.
pub trait Consumer<F>: Saved {
    /// Why it stops.
    type Stop: Copy;

    /// From a start on, so many entries of these bytes were taken, which made this of it; the next line has this
    /// number, and these bytes are left.
    ghost has_taken: { Self.Setup → Self.State → List ℕ → ℕ → Self.State → ℕ → List ℕ → Type 0 };

    /// This is what the first so many entries of these bytes make of it, from a start on.
    ghost stands: { Self.Setup → Self.State → List ℕ → ℕ → Self.State → Type 0 };

    /// From a start on, these bytes make this of it, and it stops for this reason.
    ghost stops: { Self.Setup → Self.State → List ℕ → Self.Stop → Self.State → Type 0 };

    /// What is printed of a save.
    ghost prints_saved: { Self.Setup → Self.State → List ℕ };

    /// What is printed at the end.
    ghost prints_end: { Self.Setup → Self.State → Self.Stop → List ℕ };

    /// Reads the line of this number into the buffer, and takes it. `None`: the lines after it are to be taken too.
    /// After an error it is as it was.
    fn take_line<B: BufRead>(
        &mut self,
        setup: &Self::Setup,
        alloc: Global,
        reader: &mut B,
        line: &mut Vec<u8>,
        number: u64,
    ) -> Result<Option<Self::Stop>, FollowError>
        ensures leads { IfOk result (λ stop. IfSome (B.remaining reader.old) (λ mid. (start : Self.State)
            (bytes : List ℕ) (count : ℕ) → has_taken setup.now start bytes count (Self.state self.old) number mid
            → LeadsOn (has_taken setup.now start bytes) (stops setup.now start bytes) (stands setup.now start bytes)
            count number stop (Self.state self.new) (B.remaining reader.new))) }
        ensures moves { OnOk result (Self.moves self.old self.new) }
        ensures err { OnErr result (self.new ≡ self.old) };

    /// What is printed of a save.
    fn saved_text(
        &self,
        form: &F,
        setup: &Self::Setup,
        alloc: Global,
    ) -> Result<Vec<u8>, AllocError>
        ensures { IfOk result (λ it. it.items ≡ prints_saved setup.now (Self.state self.now)) };

    /// What is printed at the end.
    fn end_text(
        &self,
        form: &F,
        setup: &Self::Setup,
        alloc: Global,
        stop: Self::Stop,
    ) -> Result<Vec<u8>, AllocError>
        ensures { IfOk result (λ it. it.items ≡ prints_end setup.now (Self.state self.now) stop) };

    /// At the start nothing was taken.
    ghost begins: { (setup : Self.Setup) (start : Self.State) (bytes : List ℕ)
        → has_taken setup start bytes 0 start 1 bytes };

    /// What was taken stands for that many entries.
    ghost stands_for_it: { (setup : Self.Setup) (start : Self.State) (bytes : List ℕ) (count : ℕ) (now : Self.State)
        (number : ℕ) (left : List ℕ) → has_taken setup start bytes count now number left
        → stands setup start bytes count now };
}
