//! What holds of the translations of reports. Each law is the contract of a function that does
//! nothing.

ghost use Rattle.report_translate.specs.Laws.{FramesKeepSense};

/// A frame of FIXT 1.1 and its translation, a frame of FIX 4.2, are read as reports that mean the
/// same and change each book alike, however both are read.
pub fn translations_keep_their_sense()
    ensures { FramesKeepSense }
{}
