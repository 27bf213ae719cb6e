//! The frames that are sent, in a buffer of fixed room: writing one takes no memory.

ghost use Rattle.std.specs.Prelude.{◌≡◌, ◌+◌, ◌≤◌, ◌++◌, ◌∷◌, [], length, IfOk, Some, None};
ghost use Rattle.std.specs.Prelude.{if◌then◌else◌};
ghost use Rattle.std.specs.Fmt.{decimal};
ghost use Rattle.frame_grammar.specs.Frame.{frame_of};
ghost use Rattle.field_groups.specs.Field.{body_of};
ghost use Rattle.typed_fields.specs.Stamp.{stamp_at};
ghost use Rattle.session_core.specs.Numbers.{IsMsgSeqNum};
ghost use Rattle.session_logon.specs.Content.{gap_fill_fields};
ghost use Rattle.session_logon.specs.Head.{our, peer};
ghost use Rattle.session_logon.specs.Laws.{header_fields, flag_field, stamp_field};
ghost use Rattle.session_frames.specs.Frames.{kind_of, heading, frame_out, fill_out};

use crate::room::{FRAME_ROOM, Room};
use field_groups::SOH;
use frame_grammar::{Kind, MAX_BODY, begin_string_of, trailer_of};
use itoa::Buffer;
use order_meaning::{Name, Names, Side};
use pair_entries::{MAX_AT, MAX_CONTENT, MAX_TYPE};
use session_core::MAX_MSG_SEQ_NUM;
use session_core::tag::{
    GAP_FILL_FLAG, MSG_SEQ_NUM, MSG_TYPE, NEW_SEQ_NO, ORIG_SENDING_TIME, POSS_DUP_FLAG,
    POSS_RESEND, SENDER_COMP_ID, SENDING_TIME, TARGET_COMP_ID,
};
use std::alloc::{AllocError, Global};
use std::marker::Model;
use typed_fields::Stamp;

/// The most bytes of a header.
const MAX_HEADER: usize = 256;

/// Room for one frame, seen as the frame last written into it.
#[derive(Debug, Drop)]
pub struct FrameBuf {
    body: Room,
    frame: Room,
}

impl Model for FrameBuf {
    ghost use Rattle.std.specs.Prelude.{ℕ, List};

    ghost Value = { List ℕ };

    ghost view = { λ b. b.frame };
}

impl FrameBuf {
    /// Room with no frame in it.
    ///
    /// # Errors
    ///
    /// `AllocError` for want of memory.
    pub fn new(alloc: Global) -> Result<FrameBuf, AllocError>
        ensures { IfOk result (λ buf. buf ≡ []) }
    {
        Ok(FrameBuf {
            body: Room::new(alloc)?,
            frame: Room::new(alloc)?,
        })
    }

    /// The frame last written into it; nothing before the first.
    pub fn bytes(&self) -> &[u8]
        ensures { result.now ≡ self.now }
    {
        self.frame.as_slice()
    }
}

// What the header of a message says beside its type and the names.
#[derive(Drop)]
struct Header {
    number: u32,
    resend: bool,
    first: u64,
    sent: u64,
    again: bool,
}

// The gateway's name on a side.
fn our(side: Side, names: &Names) -> Name
    ensures { result ≡ our side names.now }
{
    match side {
        Side::Client => names.client_our,
        Side::Venue => names.venue_our,
    }
}

// The other end's name on a side.
fn peer(side: Side, names: &Names) -> Name
    ensures { result ≡ peer side names.now }
{
    match side {
        Side::Client => names.client_peer,
        Side::Venue => names.venue_peer,
    }
}

fn kind_of(side: Side) -> Kind
    ensures { result ≡ kind_of side }
{
    match side {
        Side::Client => Kind::Fix42,
        Side::Venue => Kind::Fixt11,
    }
}

// A flag, where it is set.
fn put_flag(out: &mut Room, tag: u32, flag: bool)
    requires { length out.old + 13 ≤ FRAME_ROOM }
    ensures field { out.new ≡ out.old ++ body_of (flag_field tag flag) }
    ensures grown { length out.new ≤ length out.old + 13 }
{
    if flag {
        out.put_field(tag, b"Y");
    }
}

// A moment, with three digits of the second.
fn put_moment(out: &mut Room, tag: u32, moment: u64)
    requires moment { moment ≤ MAX_AT }
    requires room { length out.old + 33 ≤ FRAME_ROOM }
    ensures field { out.new ≡ out.old ++ body_of (stamp_field tag (Some (stamp_at moment))) }
    ensures grown { length out.new ≤ length out.old + 33 }
{
    out.put_field(tag, &Stamp::text_of_millis(moment));
}

// MsgSeqNum(34).
#[tactic(auto, using(crate::proofs::Bounds::digits_short))]
fn put_number(out: &mut Room, number: u32)
    requires { length out.old + 22 ≤ FRAME_ROOM }
    ensures field { out.new ≡ out.old ++ body_of ((MSG_SEQ_NUM, decimal number) ∷ []) }
    ensures grown { length out.new ≤ length out.old + 22 }
{
    out.put_field(MSG_SEQ_NUM, Buffer::new().format(number).as_bytes());
}

// A CompID.
fn put_name(out: &mut Room, tag: u32, name: &Name)
    requires { length out.old + 47 ≤ FRAME_ROOM }
    ensures field { out.new ≡ out.old ++ body_of ((tag, name.now) ∷ []) }
    ensures grown { length out.new ≤ length out.old + 47 }
{
    out.put_field(tag, name.as_slice());
}

impl Header {
    // The type, the names and the number.
    fn put_ids(&self, names: &Names, side: Side, msg_type: &[u8], out: &mut Room)
        requires { length out.old + length msg_type.now + 128 ≤ FRAME_ROOM }
        ensures fields { out.new ≡ out.old ++ body_of (
            (MSG_TYPE, msg_type.now) ∷
            (SENDER_COMP_ID, our side names.now) ∷
            (TARGET_COMP_ID, peer side names.now) ∷
            (MSG_SEQ_NUM, decimal self.now.number) ∷
            []) }
        ensures grown { length out.new ≤ length out.old + length msg_type.now + 128 }
    {
        out.put_field(MSG_TYPE, msg_type);
        put_name(out, SENDER_COMP_ID, &our(side, names));
        put_name(out, TARGET_COMP_ID, &peer(side, names));
        put_number(out, self.number);
    }

    // The first moment of a message that is sent again.
    fn put_first(&self, out: &mut Room)
        requires first { self.now.first ≤ MAX_AT }
        requires room { length out.old + 33 ≤ FRAME_ROOM }
        ensures field { out.new ≡ out.old ++ body_of (stamp_field ORIG_SENDING_TIME
            (if self.now.again then Some (stamp_at self.now.first) else None)) }
        ensures grown { length out.new ≤ length out.old + 33 }
    {
        if self.again {
            put_moment(out, ORIG_SENDING_TIME, self.first);
        }
    }

    // The header of a message of this type to a side, into empty room.
    fn put(&self, names: &Names, side: Side, msg_type: &[u8], out: &mut Room)
        requires first { self.now.first ≤ MAX_AT }
        requires sent { self.now.sent ≤ MAX_AT }
        requires short { length msg_type.now ≤ MAX_TYPE }
        requires empty { out.old ≡ [] }
        ensures fields { out.new ≡ body_of (header_fields side names.now msg_type.now (heading
            self.now.number self.now.resend self.now.first self.now.sent self.now.again)) }
        ensures short { length out.new ≤ MAX_HEADER }
    {
        self.put_ids(names, side, msg_type, out);
        put_flag(out, POSS_DUP_FLAG, self.again);
        put_flag(out, POSS_RESEND, self.resend);
        put_moment(out, SENDING_TIME, self.sent);
        self.put_first(out);
    }
}

// The frame of a body, in place of what was there.
#[tactic(auto, using(crate::proofs::Bounds::begin_short))]
fn put_frame(kind: Kind, body: &[u8], frame: &mut Room)
    requires { length body.now ≤ MAX_BODY }
    ensures { frame.new ≡ frame_of kind body.now }
{
    frame.clear();
    frame.put(begin_string_of(kind));
    frame.put(b"9=");
    frame.put_digits(body.len() as u32);
    frame.put(&[SOH]);
    frame.put(body);
    let last = trailer_of(frame.as_slice());
    frame.put(&last);
}

/// Writes the frame of a message to a side, in place of what was there: the header and the content,
/// the type and the content as they are given. A message that is sent again has PossDupFlag(43),
/// and its first moment in OrigSendingTime(122). Moments are in milliseconds since 1970-01-01 00:00
/// UTC.
///
/// It takes no memory.
pub fn frame_out(
    names: &Names,
    side: Side,
    number: u32,
    msg_type: &[u8],
    content: &[u8],
    resend: bool,
    first: u64,
    now: u64,
    again: bool,
    out: &mut FrameBuf,
)
    requires number { IsMsgSeqNum number }
    requires typed { 1 ≤ length msg_type.now }
    requires short { length msg_type.now ≤ MAX_TYPE }
    requires bounded { length content.now ≤ MAX_CONTENT }
    requires first { first ≤ MAX_AT }
    requires now { now ≤ MAX_AT }
    ensures { out.new ≡ frame_out names.now side number msg_type.now content.now
        resend first now again }
{
    let header = Header {
        number,
        resend,
        first,
        sent: now,
        again,
    };
    out.body.clear();
    header.put(names, side, msg_type, &mut out.body);
    out.body.put(content);
    put_frame(kind_of(side), out.body.as_slice(), &mut out.frame);
}

// The content of a gap fill up to a number.
#[tactic(auto, using(crate::proofs::Bounds::digits_short))]
fn put_gap_fill(out: &mut Room, to: u32)
    requires { out.old ≡ [] }
    ensures fields { out.new ≡ body_of (gap_fill_fields to) }
    ensures short { length out.new ≤ 64 }
{
    out.put_field(GAP_FILL_FLAG, b"Y");
    out.put_field(NEW_SEQ_NO, Buffer::new().format(to).as_bytes());
}

/// Writes the gap fill that stands for the messages of these numbers, where messages are sent
/// again: a SequenceReset numbered `from`, in place of what was there. `first` is the moment of the
/// first of these messages.
///
/// It takes no memory.
pub fn fill_out(
    names: &Names,
    side: Side,
    from: u32,
    to: u32,
    first: u64,
    now: u64,
    out: &mut FrameBuf,
)
    requires from { 1 ≤ from }
    requires some { from ≤ to }
    requires to { to ≤ MAX_MSG_SEQ_NUM }
    requires first { first ≤ MAX_AT }
    requires now { now ≤ MAX_AT }
    ensures { out.new ≡ fill_out names.now side from to first now }
{
    // The content is written where the last frame stood.
    let FrameBuf { body, frame } = out;
    frame.clear();
    put_gap_fill(frame, to + 1);
    let header = Header {
        number: from,
        resend: false,
        first,
        sent: now,
        again: true,
    };
    body.clear();
    header.put(names, side, b"4", body);
    body.put(frame.as_slice());
    put_frame(kind_of(side), body.as_slice(), frame);
}
