//! Laws of the log. They are the postconditions of functions that do nothing.

ghost use Rattle.cdc_book_log.specs.Crashes.{CrashesKeepSaves, CutBasesAreNotRead};
ghost use Rattle.cdc_book_log.specs.Replay.{ChangesReplay, SavesReplay};

/// Does nothing. A record that has what a follower without accounts makes of the entries since the last save, turns the
/// follower of that save into the one after those entries.
pub fn changes_replay()
    ensures { ChangesReplay }
{}

/// Does nothing. The records of all saves turn a follower into the one after all entries.
pub fn saves_replay()
    ensures { SavesReplay }
{}

/// Does nothing. A crash that cuts a follower's log anywhere after its base leaves the log of the first saves, of those
/// that were whole before the cut. It is read back, and its follower is the one of the last of these saves.
pub fn crashes_keep_saves()
    ensures { CrashesKeepSaves }
{}

/// Does nothing. A log that is cut within its base isn't read. A base is renamed into place once it is whole, so only
/// another writer cuts it.
pub fn cut_bases_are_not_read()
    ensures { CutBasesAreNotRead }
{}
