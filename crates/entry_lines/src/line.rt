//! The line of an entry, a word at a time.

ghost use Rattle.std.specs.Prelude.{◌≡◌, ◌+◌, ◌*◌, ◌≤◌, ◌++◌, [], length, decimal, codes, IfSome};
ghost use Rattle.std.specs.Prelude.{◌==◌, not};
ghost use Rattle.std.specs.List.{flat_map, prefix_len};
ghost use Rattle.arrayvec.specs.ArrayVec.{array_vec_len};
ghost use Rattle.pair_entries.specs.Payload.{IsOut, IsTook, AreOuts, IsEntry};
ghost use Rattle.entry_lines.specs.EntryLine.{side_name, type_in, message_words, took_words};
ghost use Rattle.entry_lines.specs.EntryLine.{taken_words};
ghost use Rattle.entry_lines.specs.EntryLine.{out_words, outs_words, next_words};
ghost use Rattle.entry_lines.specs.EntryLine.{entry_line};

use arrayvec::ArrayVec;
use itoa::Buffer;
use order_meaning::Side;
use pair_entries::{Entry, Out, Took};
use std::marker::Model;

/// The room for the line of an entry, in bytes: a body that was taken, and 512 bytes.
pub const MAX_LINE: usize = 8_704;

/// The byte that ends a field; this crate stands on none that reads fields.
const SOH: u8 = 1;

type Words = ArrayVec<u8, MAX_LINE>;

/// The line of an entry, seen as its bytes: empty until one is written. It takes no memory, and has
/// room for any line, so one serves for many entries.
#[derive(Debug, Drop)]
pub struct EntryLine {
    words: Words,
}

impl Model for EntryLine {
    ghost use Rattle.std.specs.Prelude.{ℕ, List};

    ghost Value = { List ℕ };

    ghost view = { λ l. l.words.items };
}

impl EntryLine {
    /// An empty line.
    pub fn new() -> EntryLine
        ensures { result ≡ [] }
    {
        EntryLine {
            words: Words::new(),
        }
    }

    /// Replaces the line by that of an entry with this number: when it was, what was taken or
    /// that a day began, what was given out, and the next numbers after it.
    #[tactic(auto, unfolding(crate::specs::EntryLine::entry_line))]
    pub fn write(&mut self, number: u64, entry: &Entry)
        requires { IsEntry entry.now }
        ensures { self.new ≡ entry_line number entry.now }
    {
        let words = &mut self.words;
        words.clear();
        put_number(words, number);
        put(words, b" at=");
        put_number(words, entry.at);
        put(words, b" took=");
        put_taken(words, entry.reset, &entry.took);
        put(words, b" outs=");
        put_outs(words, entry.outs.as_slice());
        put(words, b" next=");
        put_next(words, entry.next);
        put(words, b"\n");
    }

    /// The bytes of the line, with the LF at its end.
    pub fn as_slice(&self) -> &[u8]
        ensures { result.now ≡ self.now }
    {
        self.words.as_slice()
    }
}

/// Appends a text for which there is room.
fn put(line: &mut Words, text: &[u8])
    requires { array_vec_len line.old + length text.now ≤ MAX_LINE }
    ensures items { line.new.items ≡ line.old.items ++ text.now }
    ensures len { array_vec_len line.new ≡ array_vec_len line.old + length text.now }
{
    line.try_extend_from_slice(text).unwrap();
}

/// Appends a number in decimal digits.
fn put_number(line: &mut Words, number: u64)
    requires { array_vec_len line.old + 20 ≤ MAX_LINE }
    ensures items { line.new.items ≡ line.old.items ++ decimal number }
    ensures len { array_vec_len line.new ≤ array_vec_len line.old + 20 }
{
    put(line, Buffer::new().format(number).as_bytes());
}

/// The name of a side.
fn side_name(side: Side) -> &'static [u8]
    ensures name { result.now ≡ side_name side }
    ensures short { length result.now ≤ 6 }
{
    match side {
        Side::Client => b"client",
        Side::Venue => b"venue",
    }
}

/// How many bytes stand before the first SOH.
fn value_len(bytes: &[u8]) -> usize
    ensures value { result ≡ prefix_len (λ byte. not (byte == 1)) bytes.now }
    ensures within { result ≤ length bytes.now }
{
    bytes.iter().take_while(|byte| **byte != SOH).count()
}

/// The MsgType(35) of a body, up to its end where no SOH follows; empty where the body does not
/// begin with the field.
fn type_in(raw: &[u8]) -> &[u8]
    ensures msg_type { result.now ≡ type_in raw.now }
    ensures short { length result.now ≤ length raw.now }
{
    match raw.strip_prefix(b"35=") {
        Some(behind) => &behind[..value_len(behind)],
        None => &[],
    }
}

/// Appends a message: its side, its number and its type.
fn put_message(line: &mut Words, side: Side, number: u32, msg_type: &[u8])
    requires { array_vec_len line.old + (length msg_type.now + 28) ≤ MAX_LINE }
    ensures items { line.new.items ≡ line.old.items ++ message_words side number msg_type.now }
    ensures len { array_vec_len line.new ≤ array_vec_len line.old + (length msg_type.now + 28) }
{
    put(line, side_name(side));
    put(line, b":");
    put_number(line, u64::from(number));
    put(line, b":");
    put(line, msg_type);
}

/// Appends what was taken.
fn put_took(line: &mut Words, took: &Option<Took>)
    requires took { IfSome took.now IsTook }
    requires room { array_vec_len line.old + 8220 ≤ MAX_LINE }
    ensures items { line.new.items ≡ line.old.items ++ took_words took.now }
    ensures len { array_vec_len line.new ≤ array_vec_len line.old + 8220 }
{
    match took {
        None => put(line, b"none"),
        Some(took) => put_message(line, took.side, took.number, type_in(took.raw.as_slice())),
    }
}

/// Appends a new day, or what was taken.
fn put_taken(line: &mut Words, reset: bool, took: &Option<Took>)
    requires took { IfSome took.now IsTook }
    requires room { array_vec_len line.old + 8220 ≤ MAX_LINE }
    ensures items { line.new.items ≡ line.old.items ++ taken_words reset took.now }
    ensures len { array_vec_len line.new ≤ array_vec_len line.old + 8220 }
{
    if reset {
        put(line, b"day");
    } else {
        put_took(line, took);
    }
}

/// Appends a message that was given out.
fn put_out(line: &mut Words, out: &Out)
    requires out { IsOut out.now }
    requires room { array_vec_len line.old + 36 ≤ MAX_LINE }
    ensures items { line.new.items ≡ line.old.items ++ out_words out.now }
    ensures len { array_vec_len line.new ≤ array_vec_len line.old + 36 }
{
    put_message(line, out.side, out.number, out.msg_type.as_slice());
}

/// Appends messages that were given out behind another.
fn put_more(line: &mut Words, outs: &[Out])
    requires outs { AreOuts outs.now }
    requires room { array_vec_len line.old + 37 * length outs.now ≤ MAX_LINE }
    ensures items { line.new.items
        ≡ line.old.items ++ flat_map (λ out. codes "," ++ out_words out) outs.now }
    ensures len { array_vec_len line.new ≤ array_vec_len line.old + 37 * length outs.now }
{
    match outs {
        [] => {}
        [out, rest @ ..] => {
            put(line, b",");
            put_out(line, out);
            put_more(line, rest);
        }
    }
}

/// Appends the messages that were given out.
fn put_outs(line: &mut Words, outs: &[Out])
    requires outs { AreOuts outs.now }
    requires few { length outs.now ≤ 4 }
    requires room { array_vec_len line.old + 148 ≤ MAX_LINE }
    ensures items { line.new.items ≡ line.old.items ++ outs_words outs.now }
    ensures len { array_vec_len line.new ≤ array_vec_len line.old + 148 }
{
    match outs {
        [] => put(line, b"none"),
        [out, rest @ ..] => {
            put_out(line, out);
            put_more(line, rest);
        }
    }
}

/// Appends the next numbers.
fn put_next(line: &mut Words, next: (u32, u32, u32, u32))
    requires { array_vec_len line.old + 83 ≤ MAX_LINE }
    ensures items { line.new.items ≡ line.old.items ++ next_words next }
    ensures len { array_vec_len line.new ≤ array_vec_len line.old + 83 }
{
    put_number(line, u64::from(next.0));
    put(line, b",");
    put_number(line, u64::from(next.1));
    put(line, b",");
    put_number(line, u64::from(next.2));
    put(line, b",");
    put_number(line, u64::from(next.3));
}
