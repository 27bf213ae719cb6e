//! What holds of what is sent. The law is a contract: its function does nothing.

ghost use Rattle.session_frames.specs.Laws.{FramesAreRead};

/// What is sent is a frame, and is read as what it shows.
pub fn frames_are_read()
    ensures { FramesAreRead }
{}
