//! Laws of every world, independent of what moves it.

ghost use Rattle.cdc_world.specs.Laws.{ClosedSubscribersStay, NewWorldsAreReached, PlaysGoOn, PlaysPastGoOn, StepsGoOn, SubscribersAreFaithful};

/// Does nothing; each postcondition holds for every world that steps lead to from one in which nothing has happened,
/// over a store that holds nothing, or a timestamp that is its start. A subscriber has applied a prefix of the events
/// after the start that match its binding: in order, none twice, and all of them once it has received the end mark. A
/// close doesn't change that. If every event matches the binding, the book has exactly the accounts of the events
/// applied, with the balances that the ledger had at the last of them.
pub fn world_laws()
    ensures faithful { SubscribersAreFaithful }
    ensures fixed { ClosedSubscribersStay }
    ensures begins { NewWorldsAreReached }
    ensures goes_on { StepsGoOn }
    ensures plays { PlaysGoOn }
    ensures plays_past { PlaysPastGoOn }
{}
