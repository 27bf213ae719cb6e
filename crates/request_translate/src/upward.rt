//! A request of FIX 4.2 as one of FIX 5.0 SP2, for a caller that wants structs.

ghost use Rattle.std.specs.Prelude.{◌≡◌, [], None, IfOk, IfErr, OnOk};
ghost use Rattle.dict_fix42.specs.Readable.{IsReadable42};
ghost use Rattle.dict_fix42.specs.Said.{says as says42};
ghost use Rattle.dict_fix42.specs.Sense.{request42};
ghost use Rattle.dict_fix50.specs.Readable.{IsReadable50};
ghost use Rattle.dict_fix50.specs.Said.{says as says50};
ghost use Rattle.dict_fix50.specs.Sense.{request50};
ghost use Rattle.request_rules.specs.Canonical.{IsRequest};
ghost use Rattle.request_rules.specs.Put.{IsPut, Lacks};
ghost use Rattle.request_rules.specs.Rules.{up_content, up_message};
ghost use Rattle.request_translate.specs.Lack.{lack42, IsLackOf};
ghost use Rattle.request_translate.specs.Up.{IsSound42};

use dict_fix42::{Msg42, type42, write42};
use dict_fix50::{Msg50, read50};
use field_groups::split;
use order_meaning::Lack;
use request_rules::{good_request, put_up};
use std::alloc::Global;

/// PossResend(97) of a request.
fn resend(msg: &Msg42) -> bool
    ensures { result ≡ (says42 msg.now).resend }
{
    match msg {
        Msg42::New(new) => new.resend,
        Msg42::Cancel(cancel) => cancel.resend,
        Msg42::Replace(replace) => replace.resend,
        Msg42::Status(status) => status.resend,
    }
}

/// Sets PossResend(97) of a request, which its content does not have.
pub fn set_resend(msg: &mut Msg50, resend: bool)
    requires { IsReadable50 msg.old }
    ensures says { says50 msg.new ≡ record (says50 msg.old) { resend = resend } }
    ensures readable { IsReadable50 msg.new }
{
    match msg {
        Msg50::New(new) => new.resend = resend,
        Msg50::Cancel(cancel) => cancel.resend = resend,
        Msg50::Replace(replace) => replace.resend = resend,
        Msg50::Status(status) => status.resend = resend,
    }
}

/// The content of FIX 5.0 SP2 of a request.
fn content_up(alloc: Global, msg: &Msg42) -> Result<Vec<u8>, Lack>
    requires sound { IsSound42 msg.now }
    requires readable { IsReadable42 msg.now }
    ensures ok { IfOk result (λ up. IsPut (says42 msg.now) [] up.items) }
    ensures lack { IfErr result (Lacks (says42 msg.now)) }
{
    let mut content = Vec::new(alloc);
    write42(msg, &mut content)?;
    let split = split(alloc, &content)?;
    let mut up = Vec::new(alloc);
    match good_request(type42(msg), &split) {
        Ok(good) => put_up(&good, &mut up)?,
        Err(_) => unreachable!(),
    }
    Ok(up)
}

/// The request of FIX 5.0 SP2 that means what a sound request of FIX 4.2 means: its content by the
/// rules, read.
///
/// # Errors
///
/// `Lack::Tag(59)` where an order on close has a TimeInForce(59) other than `0`; else
/// `Lack::Tag(47)` where Rule80A(47) is none of `A`, `I` and `P`. No message of FIX 5.0 SP2 means
/// such a request.
/// `Lack::NoMemory` for want of memory.
pub fn up(alloc: Global, msg: &Msg42) -> Result<Msg50, Lack>
    requires sound { IsSound42 msg.now }
    requires readable { IsReadable42 msg.now }
    ensures rules { IfOk result (λ written. says50 written ≡ up_message (says42 msg.now)) }
    ensures sense { IfOk result (λ written. request50 (says50 written)
        ≡ request42 (says42 msg.now)) }
    ensures canonical { IfOk result (λ written.
        IsRequest (says50 written) (up_content (says42 msg.now))) }
    ensures readable { IfOk result IsReadable50 }
    ensures said { OnOk result (lack42 (says42 msg.now) ≡ None) }
    ensures lack { IfErr result (IsLackOf (says42 msg.now)) }
{
    let content = content_up(alloc, msg)?;
    let split = split(alloc, &content)?;
    match read50(alloc, type42(msg), &split) {
        Ok(request) => {
            let mut written = request;
            set_resend(&mut written, resend(msg));
            Ok(written)
        }
        // What goes up is read again, so that memory alone can be wanted.
        Err(_) => Err(Lack::NoMemory),
    }
}
