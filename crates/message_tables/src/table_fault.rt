//! Why fields are no message of a table.

/// The first fault of fields beside a table of messages.
#[derive(Clone, Copy, Debug, PartialEq, Eq)]
pub enum TableFault {
    /// The field of this tag is at fault, or missing, for this SessionRejectReason(373).
    Reason { tag: u32, reason: u8 },
    /// The field of this tag, or its value, is outside the profile.
    Outside { tag: u32 },
}

/// What one field is beside its row of a table.
#[derive(Clone, Copy, Debug, PartialEq, Eq)]
pub enum Mark {
    /// Its value is one of the profile, or says nothing and may stand there.
    Good,
    /// It, or its value, is outside the profile.
    Outside,
    /// Its value is at fault, for this SessionRejectReason(373).
    Wrong(u8),
}
