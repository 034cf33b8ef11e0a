//! Where what takes a stream is kept, so that a later run can go on from there.

ghost use Rattle.std.specs.Prelude.{◌≡◌, ◌++◌, ◌∷◌, [], ℕ, List, Option, OnOk, OnErr};
ghost use Rattle.cdc_streams.specs.Keeping.{AppendsText, ReplacesText};

use cdc_files::StoreError;
use std::alloc::Global;

/// What takes a stream, as far as it is saved.
pub trait Saved {
    /// By what it takes each line.
    type Setup;

    /// What is saved of it.
    type State;

    ghost state: { Self → Self.State };

    /// It was in this state once, and if it kept what changed since, that makes the one of the other.
    ghost since: { Self.State → Self → Type 0 };

    /// It keeps no changes.
    ghost is_untracked: { Self → Type 0 };

    /// Taking lines may make the second one of the first.
    ghost moves: { Self → Self → Type 0 };

    /// Begins to keep what changes of it from now on.
    fn begin_changes(&mut self, alloc: Global)
        ensures state { Self.state self.new ≡ Self.state self.old }
        ensures since { Self.since (Self.state self.old) self.new };

    /// Keeps no changes any longer.
    fn forget_changes(&mut self)
        ensures state { Self.state self.new ≡ Self.state self.old }
        ensures untracked { Self.is_untracked self.new };
}

/// Keeps the state of what takes a stream.
pub trait Keeps<C: Saved> {
    /// The second came from the first, and meanwhile was given these states, one after another, and held each of them.
    ghost has_kept: { C.Setup → Self → Self → List C.State → Type 0 };

    /// What is given to it next was in the state that is held, and has changed by the changes that it keeps.
    ghost fits: { C.Setup → Self → C → Type 0 };

    /// Keeps a state: as a whole, or by what changed. After an error, the state that was held before is held, or this
    /// one.
    fn keep(&mut self, setup: &C::Setup, alloc: Global, consumer: &C) -> Result<(), StoreError>
        ensures kept { fits setup.now self.old consumer.now → OnOk result ((first : Self) (states : List C.State)
            → has_kept setup.now first self.old states
            → has_kept setup.now first self.new (states ++ (C.state consumer.now ∷ []))) }
        ensures fits { fits setup.now self.old consumer.now → OnOk result ((next : C)
            → C.since (C.state consumer.now) next → fits setup.now self.new next) }
        ensures refused { OnErr result ((first : Self) (states : List C.State)
            → has_kept setup.now first self.old states → has_kept setup.now first self.new states) };

    /// At first it was given none.
    ghost has_kept_none: { (setup : C.Setup) (it : Self) → has_kept setup it it [] };

    /// What keeps no changes may be given to it at any time.
    ghost fits_untracked: { (setup : C.Setup) (it : Self) (consumer : C) → C.is_untracked consumer → fits setup it
        consumer };

    /// What may be given to it may take lines first.
    ghost fits_on: { (setup : C.Setup) (it : Self) (old new : C) → C.moves old new → fits setup it old
        → fits setup it new };
}

/// Holds a text, which is replaced, or to which others are appended.
pub trait LogStore {
    /// The texts that it has held, one after another, as far as they are known.
    ghost texts: { Self → Option (List (List ℕ)) };

    /// Replaces the text. After an error, the old text is held, or this one.
    fn replace(&mut self, text: &[u8]) -> Result<(), StoreError>
        ensures saved { OnOk result (ReplacesText (texts self.old) (texts self.new) text.now) }
        ensures refused { OnErr result (texts self.new ≡ texts self.old) };

    /// Appends to the last text. After an error, that one is held, and perhaps a part of this one after it.
    fn append(&mut self, text: &[u8]) -> Result<(), StoreError>
        ensures saved { OnOk result (AppendsText (texts self.old) (texts self.new) text.now) }
        ensures refused { OnErr result (texts self.new ≡ texts self.old) };
}
