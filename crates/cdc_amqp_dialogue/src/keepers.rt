//! What follows the entries of a queue, and is saved.

ghost use Rattle.std.specs.Prelude.{◌≡◌, ◌++◌, ◌∷◌, [], List, IfOk, OnErr, OnOk};
ghost use Rattle.cdc_amqp_dialogue.specs.Steps.{KeepsIt, KeepsNothing, StandsStill};
ghost use Rattle.cdc_amqp_dialogue.specs.Taking.{EntryRules, state_after};

use cdc_amqp_consumer::{Consumer, End};
use cdc_files::StoreError;
use cdc_follow::{Entry, LineError};
use std::alloc::{AllocError, Global};

/// A follower, and the store that keeps it.
pub trait Keeper {
    /// By what it takes entries.
    type Setup;

    /// Why following stops at an entry.
    type Stop: Copy;

    /// What a follower stands for.
    ghost State: { Type 0 };

    /// How entries are followed.
    ghost rules: { Self.Setup → EntryRules State Self.Stop };

    /// The follower stands for this.
    ghost stands: { Self.Setup → Self → State → Type 0 };

    /// The second came from the first, and meanwhile the store was given these followers, one after another, and held
    /// each of them.
    ghost has_kept: { Self.Setup → Self → Self → List State → Type 0 };

    /// The follower may be given to the store next.
    ghost fits: { Self.Setup → Self → Type 0 };

    /// Whether each entry names its predecessor.
    fn is_chained(setup: &Self::Setup) -> bool
        ensures { result ≡ (rules setup.now).chained };

    /// Whether the follower has taken the end-of-stream marker.
    fn has_ended(&self) -> bool;

    /// Takes the entry that the last delivery of a consumer carries, unless following stops at it, for the reason that
    /// is returned. The one error is that memory ran out, and then the follower is as it was.
    fn take(
        &mut self,
        setup: &Self::Setup,
        consumer: &Consumer,
        entry: &Entry,
    ) -> Result<Option<Self::Stop>, AllocError>
        ensures stop { IfOk result (λ stop. (state : State) → stands setup.now self.old state
            → stop ≡ (rules setup.now).stop state entry.now consumer.now.tag) }
        ensures next { IfOk result (λ stop. (state : State) → stands setup.now self.old state
            → stands setup.now self.new (state_after (rules setup.now) state entry.now stop)) }
        ensures kept { KeepsNothing (has_kept setup.now) self.old self.new }
        ensures fits { fits setup.now self.old → fits setup.now self.new }
        ensures err { OnErr result (StandsStill (stands setup.now) self.old self.new) };

    /// Notes that the last delivery of a consumer is parked, since it carries no entry for this reason.
    fn note_parked(&mut self, consumer: &Consumer, error: LineError)
        ensures follower { (setup : Self.Setup) → StandsStill (stands setup) self.old self.new }
        ensures kept { (setup : Self.Setup) → KeepsNothing (has_kept setup) self.old self.new }
        ensures fits { (setup : Self.Setup) → fits setup self.old → fits setup self.new };

    /// Notes how the server ended the connection, and the payload of the frame by which it did.
    fn note_end(&mut self, end: End, payload: &[u8])
        ensures follower { (setup : Self.Setup) → StandsStill (stands setup) self.old self.new }
        ensures kept { (setup : Self.Setup) → KeepsNothing (has_kept setup) self.old self.new }
        ensures fits { (setup : Self.Setup) → fits setup self.old → fits setup self.new };

    /// Gives the follower to the store. After an error, the store holds what it held before, or this follower.
    fn save(&mut self, setup: &Self::Setup, alloc: Global) -> Result<(), StoreError>
        ensures follower { StandsStill (stands setup.now) self.old self.new }
        ensures kept { fits setup.now self.old
            → OnOk result (KeepsIt (has_kept setup.now) (stands setup.now) self.old self.new) }
        ensures fits { fits setup.now self.old → OnOk result (fits setup.now self.new) }
        ensures refused { OnErr result (KeepsNothing (has_kept setup.now) self.old self.new) };

    /// At first the store was given none.
    ghost has_kept_none: { (setup : Self.Setup) (it : Self) → has_kept setup it it [] };
}
