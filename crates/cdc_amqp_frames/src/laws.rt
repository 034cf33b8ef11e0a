//! Laws of frames: the postconditions of functions that do nothing.

ghost use Rattle.cdc_amqp_frames.specs.Laws.{FramesAreReadBack};

/// Does nothing. A frame that is written is read back, whatever follows it.
pub fn frames_are_read_back()
    ensures { FramesAreReadBack }
{}
