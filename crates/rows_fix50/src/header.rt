//! The standard header of FIXT 1.1, as the code has it.

use message_tables::{Row, row};
use row_values::Kind;
use row_values::Kind::{Value, Version};
use value_kinds::ValueKind::{Filled, Flag};

/// The standard header.
#[rattlefmt::skip]
pub const HEADER: [Row<Kind>; 15] = [
    row!(35, Value(Filled)), // MsgType
    row!(1128, Version), // ApplVerID
    row!(49, Value(Filled)), // SenderCompID
    row!(56, Value(Filled)), // TargetCompID
    row!(34, Value(Filled)), // MsgSeqNum
    row!(43, Value(Filled)), // PossDupFlag
    row!(97, Value(Flag)), // PossResend
    row!(52, Value(Filled)), // SendingTime
    row!(122, Value(Filled)), // OrigSendingTime
    row!(50, Value(Filled)), // SenderSubID
    row!(57, Value(Filled)), // TargetSubID
    row!(142, Value(Filled)), // SenderLocationID
    row!(143, Value(Filled)), // TargetLocationID
    row!(347, Value(Filled)), // MessageEncoding
    row!(369, Value(Filled)), // LastMsgSeqNumProcessed
];
