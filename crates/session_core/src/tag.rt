//! The tags of the fields that a session reads and writes.

/// BeginSeqNo(7).
pub const BEGIN_SEQ_NO: u32 = 7;

/// EndSeqNo(16).
pub const END_SEQ_NO: u32 = 16;

/// MsgSeqNum(34).
pub const MSG_SEQ_NUM: u32 = 34;

/// MsgType(35).
pub const MSG_TYPE: u32 = 35;

/// NewSeqNo(36).
pub const NEW_SEQ_NO: u32 = 36;

/// PossDupFlag(43).
pub const POSS_DUP_FLAG: u32 = 43;

/// RefSeqNum(45).
pub const REF_SEQ_NUM: u32 = 45;

/// SenderCompID(49).
pub const SENDER_COMP_ID: u32 = 49;

/// SendingTime(52).
pub const SENDING_TIME: u32 = 52;

/// TargetCompID(56).
pub const TARGET_COMP_ID: u32 = 56;

/// Text(58).
pub const TEXT: u32 = 58;

/// PossResend(97).
pub const POSS_RESEND: u32 = 97;

/// EncryptMethod(98).
pub const ENCRYPT_METHOD: u32 = 98;

/// HeartBtInt(108).
pub const HEART_BT_INT: u32 = 108;

/// TestReqID(112).
pub const TEST_REQ_ID: u32 = 112;

/// OrigSendingTime(122).
pub const ORIG_SENDING_TIME: u32 = 122;

/// GapFillFlag(123).
pub const GAP_FILL_FLAG: u32 = 123;

/// ResetSeqNumFlag(141).
pub const RESET_SEQ_NUM_FLAG: u32 = 141;

/// RefTagID(371).
pub const REF_TAG_ID: u32 = 371;

/// RefMsgType(372).
pub const REF_MSG_TYPE: u32 = 372;

/// SessionRejectReason(373).
pub const SESSION_REJECT_REASON: u32 = 373;

/// DefaultApplVerID(1137).
pub const DEFAULT_APPL_VER_ID: u32 = 1137;
