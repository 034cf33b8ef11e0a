//! What a turn of an actor returns.

ghost use Rattle.std.specs.Prelude.{◌≡◌};
ghost use Rattle.cdc_actors.specs.Ends.{turn_if};

/// Whether an actor has more to do.
#[derive(Clone, Copy, Debug, PartialEq, Eq)]
pub enum Turn {
    More,
    /// The actor has finished; a further turn changes nothing.
    Finished,
}

impl Turn {
    /// The result of a turn, from whether the actor's work is over.
    pub(crate) fn after(is_over: bool) -> Turn
        ensures { result ≡ turn_if is_over }
    {
        if is_over { Turn::Finished } else { Turn::More }
    }
}
