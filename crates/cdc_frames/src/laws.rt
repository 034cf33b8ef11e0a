//! Laws of frames, whatever they contain. They are the postconditions of functions that do nothing.

ghost use Rattle.std.specs.Prelude.{ℕ, List};
ghost use Rattle.cdc_frames.specs.Laws.{CutsKeepWhatWasWritten, CutsKeepWholeFrames, FramesAreSplit};
ghost use Rattle.cdc_frames.specs.Laws.{FramesCanBeAdded, OtherContentsAreTorn, SplitsAreUnique, TornEndsCanBeCut};

/// What frames contain, such as the text of a saved book.
pub trait Content {
    /// These bytes are such a content.
    ghost is_content: { List ℕ → Type 0 };
}

/// Does nothing. The text of frames is split into them.
pub fn frames_are_split<C: Content>()
    ensures { FramesAreSplit C.is_content }
{}

/// Does nothing. What a text is split into is determined.
pub fn splits_are_unique<C: Content>()
    ensures { SplitsAreUnique C.is_content }
{}

/// Does nothing. Frames that are cut after any number of bytes are split into those that end at or before the cut.
pub fn cuts_keep_whole_frames<C: Content>()
    ensures { CutsKeepWholeFrames C.is_content }
{}

/// Does nothing. Frames that were whole before a cut are kept.
pub fn cuts_keep_what_was_written<C: Content>()
    ensures { CutsKeepWhatWasWritten C.is_content }
{}

/// Does nothing. While a torn end is cut off, the same frames are read, wherever that stops.
pub fn torn_ends_can_be_cut<C: Content>()
    ensures { TornEndsCanBeCut C.is_content }
{}

/// Does nothing. Once a torn end is cut off, a text with one more frame is split into the frames and this one.
pub fn frames_can_be_added<C: Content>()
    ensures { FramesCanBeAdded C.is_content }
{}

/// Does nothing. If the last frame contains something else, which a crash can leave between its two lines, the frames
/// before it are read.
pub fn other_contents_are_torn<C: Content>()
    ensures { OtherContentsAreTorn C.is_content }
{}
