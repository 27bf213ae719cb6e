//! What is sent on a wire for the first time.

ghost use Rattle.std.specs.Prelude.{◌≡◌, ◌≤◌, [], ◌∷◌, map, if◌then◌else◌};
ghost use Rattle.kept_entries.specs.Numbers.{is_side, outs_to};
ghost use Rattle.life_laws.specs.Forms.{form_frame};
ghost use Rattle.life_laws.specs.Happens.{first_form};
ghost use Rattle.wire_sends.specs.Sent.{Agrees, Sent, IsSendable, AreSendable};
ghost use Rattle.wires.specs.Told.{Keeps};

use order_meaning::{Names, Side};
use pair_entries::{MAX_AT, Out};
use session_frames::{FrameBuf, frame_out};
use wires::Wire;

/// Sends a piece where the connection stands, and answers whether it still does.
pub(crate) fn send_piece<W: Wire>(wire: &mut W, up: bool, piece: &[u8]) -> bool
    requires { Agrees (W.recorded wire.old) up }
    ensures agrees { Agrees (W.recorded wire.new) result }
    ensures sent { Sent (W.recorded wire.old) (W.recorded wire.new) up (piece.now ∷ []) result }
    ensures polls { W.polls wire.new ≡ W.polls wire.old }
    ensures plays { Keeps (W.plays wire.old) (W.plays wire.new) }
{
    if !up {
        return false;
    }
    match wire.send(piece) {
        Ok(()) => true,
        Err(_) => false,
    }
}

/// Whether a side is this one.
pub fn is_side(side: Side, other: Side) -> bool
    ensures { result ≡ is_side side other }
{
    matches!(
        (side, other),
        (Side::Client, Side::Client) | (Side::Venue, Side::Venue)
    )
}

// Sends an out where it is of this side.
fn send_first<W: Wire>(
    wire: &mut W,
    up: bool,
    frame: &mut FrameBuf,
    names: &Names,
    side: Side,
    out: &Out,
    at: u64,
) -> bool
    requires agrees { Agrees (W.recorded wire.old) up }
    requires out { IsSendable out.now }
    requires moment { at ≤ MAX_AT }
    ensures agrees { Agrees (W.recorded wire.new) result }
    ensures sent { Sent (W.recorded wire.old) (W.recorded wire.new) up
        (if is_side side out.now.side
        then form_frame names.now side (first_form at out.now) ∷ [] else []) result }
    ensures polls { W.polls wire.new ≡ W.polls wire.old }
    ensures plays { Keeps (W.plays wire.old) (W.plays wire.new) }
{
    if !is_side(side, out.side) {
        return up;
    }
    frame_out(
        names,
        side,
        out.number,
        out.msg_type.as_slice(),
        out.content.as_slice(),
        out.resend,
        at,
        at,
        false,
        frame,
    );
    send_piece(wire, up, frame.bytes())
}

/// Sends the outs of a side among these, one after another, and answers whether the connection
/// still stands.
pub(crate) fn send_outs<W: Wire>(
    wire: &mut W,
    up: bool,
    frame: &mut FrameBuf,
    names: &Names,
    side: Side,
    outs: &[Out],
    at: u64,
) -> bool
    requires agrees { Agrees (W.recorded wire.old) up }
    requires outs { AreSendable outs.now }
    requires moment { at ≤ MAX_AT }
    ensures agrees { Agrees (W.recorded wire.new) result }
    ensures sent { Sent (W.recorded wire.old) (W.recorded wire.new) up
        (map (form_frame names.now side) (map (first_form at) (outs_to side outs.now))) result }
    ensures polls { W.polls wire.new ≡ W.polls wire.old }
    ensures plays { Keeps (W.plays wire.old) (W.plays wire.new) }
{
    match outs {
        [] => up,
        [out, rest @ ..] => {
            let still = send_first(wire, up, frame, names, side, out, at);
            send_outs(wire, still, frame, names, side, rest, at)
        }
    }
}
