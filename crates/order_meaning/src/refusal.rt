//! What a Reject(3) or a BusinessMessageReject(j) says.

use crate::Bytes;

/// A Reject(3) or a BusinessMessageReject(j), each field by what it says; none where it is absent.
#[derive(Debug, Drop)]
pub struct Refusal {
    /// RefSeqNum(45): the number of the message that is refused.
    pub number: Option<u32>,
    /// RefMsgType(372).
    pub msg_type: Option<Bytes>,
    /// BusinessRejectRefID(379).
    pub id: Option<Bytes>,
    /// RefTagID(371).
    pub tag: Option<u32>,
    /// SessionRejectReason(373), or BusinessRejectReason(380).
    pub reason: Option<u32>,
    /// Text(58), 1 to 2,048 bytes.
    pub text: Option<Bytes>,
}
