//! Laws of saves. They are the postconditions of functions that do nothing.

ghost use Rattle.cdc_sql.specs.Laws.{BodiesDoNotCommit, CutsLeaveWholeSaves, PositionsAreBooks, PositionsAreQuoted};
ghost use Rattle.cdc_sql.specs.Laws.{RowsAreBooks, RowsAreDistinct, RowsAreLast, SavesKeepAPrefix, SavesMakeTables};
ghost use Rattle.cdc_sql.specs.Laws.{WhateverSavesKeepAPrefix};

/// Does nothing. A position, with a line feed after it, is the text of a saved book that has no accounts. If the
/// binding's text is plain, it may stand between quotes.
pub fn positions_are_books()
    ensures books { PositionsAreBooks }
    ensures quoted { PositionsAreQuoted }
{}

/// Does nothing. The rows of events are those of their book, each account has one, and it is what the last event that
/// has the account shows of it.
pub fn rows_are_books()
    ensures books { RowsAreBooks }
    ensures distinct { RowsAreDistinct }
    ensures last { RowsAreLast }
{}

/// Does nothing. Saves that are executed over the tables of a follower make of them the tables with what it has applied
/// meanwhile.
pub fn saves_make_tables()
    ensures { SavesMakeTables }
{}

/// Does nothing. A follower of a chained queue that resumes at the place of the tables of a prefix makes of them, by
/// its saves, its own tables, which are those of a prefix.
pub fn saves_keep_a_prefix()
    ensures { SavesKeepAPrefix }
{}

/// Does nothing. Whatever followers of one chained queue made saves, and in whatever order these are executed, also
/// after some that failed: the tables stay those of a prefix of the queue. So several followers may save at a time, and
/// one that was stopped may wake up.
pub fn whatever_saves_keep_a_prefix()
    ensures { WhateverSavesKeepAPrefix }
{}

/// Does nothing. A text of saves that is cut off has the whole text of the first saves and a part of the next one's. If
/// that part has no whole word COMMIT, nothing of that save is committed.
pub fn cuts_leave_whole_saves()
    ensures cuts { CutsLeaveWholeSaves }
    ensures bodies { BodiesDoNotCommit }
{}
