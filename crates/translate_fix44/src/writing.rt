//! What the kinds of rules of FIX 4.4 write, and what they cannot say.

ghost use Rattle.std.specs.Prelude.{◌≡◌, ◌++◌, OnOk};
ghost use Rattle.std.specs.Io.{StartsWith};
ghost use Rattle.std.specs.Option.{option_map};
ghost use Rattle.field_groups.specs.Field.{body_of};
ghost use Rattle.rule_rows.specs.ByRules.{lack_if};
ghost use Rattle.translate_fix44.specs.declared.rules.Own.TheVariants as rules;
ghost use Rattle.translate_fix44.specs.CodeRules.{coded, firm_of, lacks, writes};
ghost use Rattle.translate_fix44.specs.Rules.{is_market_or_limit, lacks_close, turn};

use crate::rules::Own;
use field_groups::{put_byte, put_field};
use message_tables::Lookup;
use order_meaning::{Lack, Lines};
use report_rules::{party, put_code_if, put_month, put_told, put_within};
use request_rules::{is_unlisted, put_parties};
use rule_rows::{Lacking, OwnRule, code_of, number_of, put_text};
use std::alloc::AllocError;

/// What the rules read beside the fields.
#[derive(Drop)]
pub(crate) struct Besides<'k> {
    /// The parties of the message.
    pub(crate) parties: Lines,
    /// Whether it has the terms of an order (D, G and 8), with a place for a party of role 4.
    pub(crate) has_terms: bool,
    /// The original id that is known of the order of a cancel reject.
    pub(crate) known: Option<&'k [u8]>,
}

/// What the rules read.
pub(crate) type Source<'f, 'k, 'a> = rule_rows::Source<'f, 'a, Besides<'k>>;

/// What a call answers that appends: an error only for want of memory. What stood there stays.
type Appended = Result<(), AllocError>;

/// A code, or the one that it turns to.
fn turn(turns: Option<(u8, u8)>, code: u8) -> u8
    ensures { result ≡ turn turns code }
{
    match turns {
        None => code,
        Some((from, to)) => if from == code { to } else { code },
    }
}

/// The code at a tag, or the one that it turns to.
fn turned(source: &Source<'_, '_, '_>, tag: u32, turns: Option<(u8, u8)>) -> Option<u8>
    ensures { result ≡ option_map (turn turns) (coded source.now tag) }
{
    match code_of(source.fields.value(tag)) {
        None => None,
        Some(code) => Some(turn(turns, code)),
    }
}

/// Appends HandlInst(21), which is 1 in an order that does not say it.
fn put_hand_inst(source: &Source<'_, '_, '_>, out: &mut Vec<u8>) -> Appended
    ensures done { OnOk result (out.new.items
        ≡ out.old.items ++ body_of (writes source.now rules.HandlInst)) }
    ensures kept { StartsWith out.new.items out.old.items }
{
    if source.besides.has_terms {
        match source.fields.value(21) {
            Some(text) => put_field(out, 21, text),
            None => put_byte(out, 21, b'1'),
        }
    } else {
        Ok(())
    }
}

/// Appends OrigClOrdID(41), or else the id that is known, if there is one.
fn put_original(source: &Source<'_, '_, '_>, out: &mut Vec<u8>) -> Appended
    ensures done { OnOk result (out.new.items
        ≡ out.old.items ++ body_of (writes source.now rules.Original)) }
    ensures kept { StartsWith out.new.items out.old.items }
{
    match (source.fields.value(41), source.besides.known) {
        (Some(said), _) => put_field(out, 41, said),
        (None, Some(known)) => put_field(out, 41, known),
        (None, None) => Ok(()),
    }
}

/// The id of the first party of role 4, where that has a place.
fn firm<'s>(source: &'s Source<'_, '_, '_>) -> Option<&'s [u8]>
    ensures { option_map (λ id. id.now) result ≡ firm_of source.now }
{
    if source.besides.has_terms {
        party(&source.besides.parties, 4)
    } else {
        None
    }
}

/// Whether an OrdType is market (1) or limit (2).
fn is_market_or_limit(ord_type: Option<u8>) -> bool
    ensures { result ≡ is_market_or_limit ord_type }
{
    match ord_type {
        None => false,
        Some(code) => code == b'1' || code == b'2',
    }
}

/// Whether a time is at the close beside neither a market nor a limit order.
fn lacks_close(ord_type: Option<u8>, time: Option<u8>) -> bool
    ensures { result ≡ lacks_close ord_type time }
{
    match time {
        None => false,
        Some(time) => time == b'7' && !is_market_or_limit(ord_type),
    }
}

/// The tag, where something cannot be said.
fn lack_if(lacks: bool, tag: u32) -> Option<u32>
    ensures { result ≡ lack_if lacks tag }
{
    if lacks { Some(tag) } else { None }
}

impl<'k> Lacking<Besides<'k>> for Own {
    ghost lacks = { lacks };

    #[inline(always)]
    fn lack(&self, source: &Source<'_, 'k, '_>) -> Option<u32> {
        let fields = source.fields;
        match self {
            Own::Original => match (fields.value(41), source.besides.known) {
                (None, None) => Some(41),
                _ => None,
            },
            Own::Turned(tag, listed, turns) => {
                lack_if(is_unlisted(listed, turned(source, *tag, *turns)), *tag)
            }
            Own::AtClose => {
                let ord_type = code_of(fields.value(40));
                lack_if(lacks_close(ord_type, code_of(fields.value(59))), 59)
            }
            _ => None,
        }
    }
}

/// Appends what a rule says that lacks nothing.
fn say(source: &Source<'_, '_, '_>, rule: &Own, out: &mut Vec<u8>) -> Appended
    ensures done { OnOk result (out.new.items
        ≡ out.old.items ++ body_of (writes source.now rule.now)) }
    ensures kept { StartsWith out.new.items out.old.items }
{
    let fields = source.fields;
    match rule {
        Own::Month => put_month(out, fields),
        Own::HandlInst => put_hand_inst(source, out),
        Own::Original => put_original(source, out),
        Own::Turned(tag, _, turns) => put_code_if(out, *tag, turned(source, *tag, *turns)),
        Own::AtClose => put_text(out, 59, fields.value(59)),
        Own::Parties => {
            let parties = &source.besides.parties;
            put_parties(out, party(parties, 3), party(parties, 1), firm(source))
        }
        Own::PartyOf(_) => Ok(()),
        Own::Within(tag, last, other) => {
            put_within(out, *tag, *last, *other, number_of(fields.value(*tag)))
        }
        Own::Told(is_report) => put_told(out, fields, *is_report),
    }
}

impl<'k> OwnRule<Besides<'k>> for Own {
    ghost writes = { writes };

    ghost lacks = { lacks };

    fn put(&self, source: &Source<'_, 'k, '_>, out: &mut Vec<u8>) -> Result<(), Lack> {
        match self.lack(source) {
            Some(tag) => Err(Lack::Tag(tag)),
            None => Ok(say(source, self, out)?),
        }
    }
}
