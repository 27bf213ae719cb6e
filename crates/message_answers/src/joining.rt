//! The requests that a journal forwarded, as they join the chains.

ghost use Rattle.std.specs.Prelude.{◌≡◌, ◌++◌, [], IfOk, OnOk, unwrap_or};
ghost use Rattle.std.specs.Option.{option_map, option_to_list};
ghost use Rattle.message_tables.specs.Tables.{first_of};
ghost use Rattle.kept_entries.specs.Days.{last_day};
ghost use Rattle.event_decisions.specs.Body.{fields_of};
ghost use Rattle.row_values.specs.Kinds as kinds;
ghost use Rattle.value_kinds.specs.ValueKind as value_kinds;
ghost use Rattle.message_answers.specs.Chains.{joining_letter, item_said, original_said};
ghost use Rattle.message_answers.specs.Chains.{new_item, chains_of};

use field_groups::value_of;
use kept_entries::source_in;
use message_tables::Lookup;
use order_chains::{Chains, ItemRef};
use pair_entries::{EntryRef, OutRef};
use pair_journal::Reader;
use row_values::text;
use std::alloc::{AllocError, Global};
use value_kinds::ValueKind::Id;

// The letter of a New Order (D), a Cancel (F) or a Cancel/Replace (G) that an out translates.
fn joining_letter(entry: &EntryRef<'_>, out: &OutRef<'_>) -> Option<u8>
    ensures { result ≡ joining_letter entry.now out.now }
{
    match source_in(entry, out) {
        Some((_, letter)) if matches!(letter, b'D' | b'F' | b'G') => Some(letter),
        _ => None,
    }
}

// The same of the first of these outs that has one.
#[tactic(auto, unfolding(message_tables::specs::Tables::first_of))]
fn first_letter(entry: &EntryRef<'_>, outs: &[OutRef<'_>]) -> Option<u8>
    ensures { result ≡ first_of (joining_letter entry.now) outs.now }
{
    match outs {
        [] => None,
        [out, rest @ ..] => match joining_letter(entry, out) {
            Some(letter) => Some(letter),
            None => first_letter(entry, rest),
        },
    }
}

// The fields of a body, each of which is read where it is asked for.
#[derive(Clone, Copy)]
struct Body<'a> {
    bytes: &'a [u8],
}

impl<'a> Lookup for Body<'a> {
    ghost fields = { λ body. fields_of body.bytes.now };

    fn value(&self, tag: u32) -> Option<&[u8]> {
        value_of(self.bytes, tag)
    }
}

// OrigClOrdID(41) of a request, which an order (D) does not have.
fn original<'f, F: Lookup>(letter: u8, fields: &'f F) -> Option<&'f [u8]>
    ensures { option_map (λ id. id.now) result ≡ original_said letter (F.fields fields.now) }
{
    match letter {
        b'D' => None,
        _ => text(fields, 41, &Id),
    }
}

// ClOrdID(11) of a request.
pub(crate) fn id<'f, F: Lookup>(fields: &'f F) -> &'f [u8]
    ensures { result.now ≡ unwrap_or
        (kinds.said (F.fields fields.now) 11 (kinds.Value value_kinds.Id)) [] }
{
    match text(fields, 11, &Id) {
        Some(id) => id,
        None => &[],
    }
}

// The request that these fields say, as it joins the chains.
pub(crate) fn item_said<'f, F: Lookup>(number: u32, letter: u8, fields: &'f F) -> ItemRef<'f>
    ensures { result ≡ item_said number letter (F.fields fields.now) }
{
    ItemRef {
        id: id(fields),
        orig: original(letter, fields),
        number,
        letter,
    }
}

// Adds the request that an entry forwarded, unless one with its id is there. Of its fields two are
// read, and none is judged again.
fn join(chains: &mut Chains, entry: &EntryRef<'_>) -> Result<(), AllocError>
    ensures { OnOk result (chains.new ≡
        chains.old ++ option_to_list (new_item chains.old entry.now)) }
{
    let Some(took) = &entry.took else {
        return Ok(());
    };
    let Some(letter) = first_letter(entry, entry.outs.as_slice()) else {
        return Ok(());
    };
    let fields = Body { bytes: took.raw };
    let item = item_said(took.number, letter, &fields);
    chains.add(&item)
}

/// The requests that a journal forwarded on its last day, as its entries are read one by one.
#[derive(Drop)]
pub struct Joining {
    chains: Chains,
}

impl Joining {
    /// Of no entries yet.
    ///
    /// # Errors
    ///
    /// `AllocError` for want of memory.
    pub fn new(alloc: Global) -> Result<Joining, AllocError>
        ensures { IfOk result (λ joining. joining.chains ≡ chains_of []) }
    {
        Ok(Joining {
            chains: Chains::new(alloc)?,
        })
    }

    /// The chains of the last day of the entries that were read.
    pub fn into_chains(self) -> Chains
        ensures { result ≡ self.chains }
    {
        let Joining { chains, .. } = self;
        chains
    }
}

impl Reader for Joining {
    ghost shown = { λ joining entries. joining.chains ≡ chains_of (last_day entries) };

    fn saw(&mut self, entry: &EntryRef<'_>) -> Result<(), AllocError> {
        if entry.reset {
            self.chains.clear();
            return Ok(());
        }
        join(&mut self.chains, entry)
    }

    fn restart(&mut self) {
        self.chains.clear();
    }
}
