//! A request of FIX 4.4 as one of FIX 5.0 SP2, for a caller that wants structs.

ghost use Rattle.std.specs.Prelude.{◌≡◌, IfErr, IfOk, Ok};
ghost use Rattle.dict_fix50.specs.Readable.{IsReadable50};
ghost use Rattle.dict_fix50.specs.Said.{says as says50};
ghost use Rattle.requests_fix44.specs.Readable.{IsReadable44};
ghost use Rattle.requests_fix44.specs.Said.{says as says44};
ghost use Rattle.translate_fix44.specs.Laws.{StandsUp};
ghost use Rattle.translate_fix44.specs.Rules.{up_message};
ghost use Rattle.structs_fix44.specs.Up.{IsLackOf, IsSound44, IsUp};

use dict_fix44::RequestTables;
use dict_fix50::{Msg50, read50};
use field_groups::{put_field, split};
use order_meaning::Lack;
use request_translate::set_resend;
use requests_fix44::{Msg44, type44, write44};
use std::alloc::Global;
use translate_fix44::put_request;
use translation::TranslateError;

/// PossResend(97) of a request.
fn resend(msg: &Msg44) -> bool
    ensures { result ≡ (says44 msg.now).resend }
{
    match msg {
        Msg44::New(new) => new.resend,
        Msg44::Cancel(cancel) => cancel.resend,
        Msg44::Replace(replace) => replace.resend,
        Msg44::Status(status) => status.resend,
    }
}

/// The content of FIX 5.0 SP2 of a request.
fn content_up(alloc: Global, msg: &Msg44) -> Result<Vec<u8>, Lack>
    requires sound { IsSound44 msg.now }
    requires readable { IsReadable44 msg.now }
    ensures ok { IfOk result (λ up. IsUp (says44 msg.now) up.items) }
    ensures lack { IfErr result (IsLackOf (up_message (says44 msg.now))) }
{
    let mut body = Vec::new(alloc);
    put_field(&mut body, 35, type44(msg))?;
    write44(msg, &mut body)?;
    let split = split(alloc, &body)?;
    let mut up = Vec::new(alloc);
    match put_request(alloc, &RequestTables::new(), &split, &mut up) {
        Ok(()) => Ok(up),
        Err(TranslateError::Lacking(tag)) => Err(Lack::Tag(tag)),
        // What is written is read again, so that memory alone can be wanted.
        Err(_) => Err(Lack::NoMemory),
    }
}

/// The request of FIX 5.0 SP2 that stands for a sound request of FIX 4.4: its content by the rules,
/// read.
///
/// # Errors
///
/// `Lack::Tag` for the first of OrdType(40), TimeInForce(59), OrderCapacity(528) and PartyRole(452)
/// of which FIX 5.0 SP2 cannot say what stands there; `Lack::NoMemory` for want of memory.
pub fn up44(alloc: Global, msg: &Msg44) -> Result<Msg50, Lack>
    requires sound { IsSound44 msg.now }
    requires readable { IsReadable44 msg.now }
    ensures rules { IfOk result (λ written. up_message (says44 msg.now) ≡ Ok (says50 written)) }
    ensures stands { IfOk result (λ written. StandsUp (says44 msg.now) (says50 written)) }
    ensures readable { IfOk result IsReadable50 }
    ensures lack { IfErr result (IsLackOf (up_message (says44 msg.now))) }
{
    let content = content_up(alloc, msg)?;
    let split = split(alloc, &content)?;
    match read50(alloc, type44(msg), &split) {
        Ok(request) => {
            let mut written = request;
            set_resend(&mut written, resend(msg));
            Ok(written)
        }
        // What goes up is read again, so that memory alone can be wanted.
        Err(_) => Err(Lack::NoMemory),
    }
}
