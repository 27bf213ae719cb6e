//! The standard header of FIX 4.2, as the code has it.

use message_tables::{Row, Test, row};
use row_values::Kind;
use row_values::Kind::Value;
use value_kinds::ValueKind::{Filled, Flag};

/// The standard header.
#[rattlefmt::skip]
pub const HEADER: [Row<Kind>; 14] = [
    row!(35, Value(Filled)), // MsgType
    row!(49, Value(Filled)), // SenderCompID
    row!(56, Value(Filled)), // TargetCompID
    row!(34, Value(Filled)), // MsgSeqNum
    row!(43, Value(Filled)), // PossDupFlag
    row!(97, Value(Flag)), // PossResend
    row!(52, Value(Filled)), // SendingTime
    row!(122, Value(Filled)), // OrigSendingTime
    row!(50, Value(Filled)), // SenderSubID
    row!(57, Value(Filled)), // TargetSubID
    row!(142, Value(Filled)), // SenderLocationID
    row!(143, Value(Filled)), // TargetLocationID
    row!(347, Value(Filled)), // MessageEncoding
    row!(369, Value(Filled)), // LastMsgSeqNumProcessed
];

/// MaturityDay(205) is the day of a MaturityMonthYear(200).
pub const HAS_DAY: &[&[Test]] = &[&[Test::Stands(205)]];
