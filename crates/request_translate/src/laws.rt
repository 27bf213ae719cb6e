//! What holds of the translations of requests. Each law is the contract of a function that does
//! nothing.

ghost use Rattle.request_translate.specs.Laws.{FramesKeepSense, LacksNothing, OneOutcome};
ghost use Rattle.request_translate.specs.Laws.{ReadIsSound, RequestsHaveOneContent};
ghost use Rattle.request_translate.specs.Laws.{WrittenIsReadAgain};
ghost use Rattle.request_translate.specs.Plain.{PlainOrdersAreTranslated};

/// No message of FIX 5.0 SP2 means a request that has no spelling there. So where [`crate::up`]
/// answers a lack, no message of FIX 5.0 SP2 means the same.
pub fn messages_lack_nothing()
    ensures { LacksNothing }
{}

/// Canonical requests of FIX 5.0 SP2 that mean the same have the same content, so that a request
/// has one content.
pub fn requests_have_one_content()
    ensures { RequestsHaveOneContent }
{}

/// A body has one outcome: a frame, a first fault, a lack, or a translation that is too long. So
/// each answer of a [`crate::Translator`] other than want of memory comes exactly where it is the
/// outcome.
pub fn bodies_have_one_outcome()
    ensures { OneOutcome }
{}

/// A frame of FIX 4.2 and its translation, a frame of FIXT 1.1, mean the same request, however both
/// are read.
pub fn translations_keep_their_sense()
    ensures { FramesKeepSense }
{}

/// A plain order is translated as version 0.1.0 did: field by field, and the client's id to a party
/// of its role.
pub fn a_plain_order_is_translated_as_before()
    ensures { PlainOrdersAreTranslated }
{}

/// What is written of a sound message is read again: its content is at no fault and says the same,
/// but for PossResend(97), which stands in the header. A sound message of FIX 5.0 SP2 says the
/// month of its date, and its parties are any.
pub fn written_is_read_again()
    ensures { WrittenIsReadAgain }
{}

/// What is read of the fields of a body is sound, in FIX 4.2 and in FIX 5.0 SP2, so that what is
/// written of it is read again.
pub fn read_is_sound()
    ensures { ReadIsSound }
{}
