//! Whether the body of a refusal is good: a Reject(3) or a Business Message Reject(j).

ghost use Rattle.std.specs.Prelude.{IfErr, OnOk};
ghost use Rattle.order_meaning.specs.declared.Side.TheVariants.{Client, Venue};
ghost use Rattle.report_translate.specs.Reading.{refusal_message};
ghost use Rattle.report_translate.specs.Refusals.{IsGoodRefusal, IsFaultyRefusal};
ghost use Rattle.report_translate.specs.Writing.{IsReadAs};
ghost use Rattle.translation.specs.Header.{type_of};

use field_groups::{Split, is_type, split};
use order_meaning::{Fault, Refusal, Side};
use reports_fix42 as fix42;
use reports_fix50 as fix50;
use std::alloc::Global;
use translation::{TranslateError, faulty, msg_type};

/// The refusal of FIX 4.2 that the fields of a body are.
#[tactic(auto, using(crate::proofs::OfType::refusals42))]
fn read42(alloc: Global, msg_type: &[u8], split: &Split<'_>) -> Result<Refusal, Fault>
    ensures { IsReadAs result
        (refusal_message Client msg_type.now split.now.fields split.now.fault) }
{
    if is_type(msg_type, b'3') {
        fix42::read_session_reject(alloc, split)
    } else if is_type(msg_type, b'j') {
        fix42::read_business_reject(alloc, split)
    } else {
        Err(Fault::NotSupported)
    }
}

/// The refusal of FIX 5.0 SP2 that the fields of a body are.
#[tactic(auto, using(crate::proofs::OfType::refusals50))]
fn read50(alloc: Global, msg_type: &[u8], split: &Split<'_>) -> Result<Refusal, Fault>
    ensures { IsReadAs result
        (refusal_message Venue msg_type.now split.now.fields split.now.fault) }
{
    if is_type(msg_type, b'3') {
        fix50::read_session_reject(alloc, split)
    } else if is_type(msg_type, b'j') {
        fix50::read_business_reject(alloc, split)
    } else {
        Err(Fault::NotSupported)
    }
}

/// The refusal of a side that the fields of a body are.
fn read(alloc: Global, side: Side, split: &Split<'_>) -> Result<Refusal, Fault>
    ensures { IsReadAs result (refusal_message side (type_of split.now.fields) split.now.fields
        split.now.fault) }
{
    let msg_type = msg_type(&split.fields);
    match side {
        Side::Client => read42(alloc, msg_type, split),
        Side::Venue => read50(alloc, msg_type, split),
    }
}

/// Whether a body is a good Reject(3) or Business Message Reject(j) of a side: of FIX 4.2 for the
/// client, and of FIX 5.0 SP2 for the venue.
///
/// # Errors
///
/// `Faulty` for the first fault of the body, exactly where it has one, and with
/// `Fault::NotSupported` for any other type; `NoMemory` for want of memory.
#[tactic(auto, using(crate::proofs::Refused::judged))]
pub fn check_refusal(alloc: Global, side: Side, body: &[u8]) -> Result<(), TranslateError>
    ensures ok { OnOk result (IsGoodRefusal (refusal_message side) body.now) }
    ensures refused { IfErr result (IsFaultyRefusal (refusal_message side) body.now) }
{
    let split = split(alloc, body)?;
    match read(alloc, side, &split) {
        Ok(_) => Ok(()),
        Err(fault) => Err(faulty(fault)),
    }
}
