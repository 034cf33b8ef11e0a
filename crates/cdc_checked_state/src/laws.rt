//! Laws of states that are saved. They are the postconditions of functions that do nothing.

ghost use Rattle.cdc_checked_state.specs.Laws.{FollowedEventsFit, FollowersCanBeSaved};
ghost use Rattle.cdc_checked_state.specs.Logs.{LogsCanBeCut};

/// Does nothing. The numbers of applied events have the widths of their fields, whatever the bytes are.
pub fn followed_events_fit()
    ensures { FollowedEventsFit }
{}

/// Does nothing. A follower that stands for such events can be saved: its text is read back.
pub fn followers_can_be_saved()
    ensures { FollowersCanBeSaved }
{}

/// Does nothing. A log that is cut anywhere after its base is the log of the records that ended before the cut.
pub fn logs_can_be_cut()
    ensures { LogsCanBeCut }
{}
