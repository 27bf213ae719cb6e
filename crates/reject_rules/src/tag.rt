//! The tags of a BusinessMessageReject(j) that no session message has.

/// BusinessRejectRefID(379).
pub(crate) const BUSINESS_REJECT_REF_ID: u32 = 379;

/// BusinessRejectReason(380).
pub(crate) const BUSINESS_REJECT_REASON: u32 = 380;
