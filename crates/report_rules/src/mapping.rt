//! ExecType(150) and OrdStatus(39) of FIX 5.0 SP2 in FIX 4.2, and what is said on close.

ghost use Rattle.std.specs.Prelude.{◌≡◌, is_some};
ghost use Rattle.report_rules.specs.CodeRules.{close_code};
ghost use Rattle.report_rules.specs.Rules.{at_close, exec_type, is_event, is_fill};
ghost use Rattle.report_rules.specs.Rules.{is_status, status_if, trans_type, works_on};

use typed_fields::Dec;

/// Whether both versions have an ExecType(150), which tells of no execution.
fn is_event(exec_type: u8) -> bool
    ensures { result ≡ is_event exec_type }
{
    matches!(
        exec_type,
        b'0' | b'3' | b'4' | b'5' | b'6' | b'7' | b'8' | b'9' | b'A' | b'B' | b'C' | b'D' | b'E'
    )
}

/// Whether a report was asked for.
fn is_status(exec_type: u8) -> bool
    ensures { result ≡ is_status exec_type }
{
    exec_type == b'I' || exec_type == b'L'
}

/// Whether a report was asked for, where it says an ExecType(150).
pub(crate) fn status_if(exec_type: Option<u8>) -> bool
    ensures { result ≡ status_if exec_type }
{
    match exec_type {
        None => false,
        Some(code) => is_status(code),
    }
}

/// ExecTransType(20); none where the ExecType(150) has no counterpart.
pub(crate) fn trans_type(exec_type: u8) -> Option<u8>
    ensures { result ≡ trans_type exec_type }
{
    if exec_type == b'F' {
        Some(b'0')
    } else if exec_type == b'G' {
        Some(b'2')
    } else if exec_type == b'H' {
        Some(b'1')
    } else if is_status(exec_type) {
        Some(b'3')
    } else if is_event(exec_type) {
        Some(b'0')
    } else {
        None
    }
}

/// Whether a trade fills its order, by OrdStatus(39) and LeavesQty(151).
pub(crate) fn is_fill(status: u8, leaves: Dec) -> bool
    ensures { result ≡ is_fill status leaves.units }
{
    status == b'2' || (status == b'6' || status == b'E') && leaves.units == 0
}

/// ExecType(150) of FIX 4.2, by that of FIX 5.0 SP2, OrdStatus(39), and whether a trade fills its
/// order.
pub(crate) fn exec_type(code: u8, status: u8, fills: bool) -> u8
    ensures { result ≡ exec_type code status fills }
{
    if code == b'F' {
        if fills { b'2' } else { b'1' }
    } else if code == b'G' || (code == b'H' || is_status(code)) {
        status
    } else {
        code
    }
}

/// Whether an order works on as one that was replaced.
pub(crate) fn works_on(status: Option<u8>, exec_type: Option<u8>) -> bool
    ensures { result ≡ works_on status exec_type }
{
    match (status, exec_type) {
        (Some(status), Some(code)) => code == b'5' && status == b'0',
        (None, _) => false,
        (Some(_), None) => false,
    }
}

/// Whether OrdType(40) and TimeInForce(59) say an order that FIX 4.2 has as one on close.
pub(crate) fn at_close(ord_type: Option<u8>, time: Option<u8>) -> bool
    ensures { result ≡ at_close ord_type time }
{
    match (ord_type, time) {
        (Some(code), Some(time)) => time == b'7' && (code == b'1' || code == b'2'),
        (None, _) => false,
        (Some(_), None) => false,
    }
}

/// OrdType(40) on close.
pub(crate) fn on_close(ord_type: u8) -> u8
    ensures { result ≡ close_code ord_type }
{
    if ord_type == b'1' { b'5' } else { b'B' }
}

/// Whether an ExecType(150) has a counterpart in FIX 4.2, which of those of FIX 5.0 SP2 `J` and `K`
/// have not.
pub fn has_trans_type(exec_type: u8) -> bool
    ensures { result ≡ is_some (trans_type exec_type) }
{
    trans_type(exec_type).is_some()
}
