//! A forwarded request as the list of them holds it.

ghost use Rattle.std.specs.Prelude.{◌≡◌, IfOk};
ghost use Rattle.std.specs.Option.{option_map};
ghost use Rattle.std.specs.Str.{bytes_eq};
ghost use Rattle.std.specs.Cmp.{on_equiv, on_per, partial_equiv_from_equiv};
ghost use Rattle.std.specs.Cmp.Lexicographic.{bytes_decides, nat_list_eq_equiv};
ghost use Rattle.std.specs.Hash as fed;
ghost use Rattle.std.proofs.Common.{ap};

use crate::ItemRef;
use crate::id::Id;
use order_meaning::Bytes;
use std::alloc::{AllocError, Global};
use std::hash::{Hash, Hasher};
use std::marker::Model;

/// A forwarded request as the list of them holds it, seen as that request. An OrigClOrdID(41),
/// which an order does not have, stands elsewhere. Two are equal where their ids are.
#[derive(Drop)]
pub(crate) struct Held<'b> {
    id: Id<'b>,
    orig: Option<Box<Bytes>>,
    number: u32,
    letter: u8,
}

const _: () = prove!(std::mem::size_of::<Held<'static>>() == 48);

impl<'b> Model for Held<'b> {
    ghost use Rattle.std.specs.Option.{option_map};
    ghost use Rattle.order_chains.specs.declared.item.ChainItem.{ChainItem};
    ghost use Rattle.order_chains.specs.Id.{bytes_of};

    ghost Value = { ChainItem };

    ghost view = { λ h. record {
      id = bytes_of h.id;
      orig = option_map (λ orig. orig.value) h.orig;
      number = h.number;
      letter = h.letter;
    } };
}

impl<'b> PartialEq for Held<'b> {
    ghost eq = { λ x y. bytes_eq x.id y.id };

    ghost laws = { on_per (λ x. x.id) (partial_equiv_from_equiv nat_list_eq_equiv) };

    fn eq(&self, other: &Held<'b>) -> bool {
        self.id.as_slice() == other.id.as_slice()
    }
}

impl<'b> Eq for Held<'b> {
    ghost laws = { on_equiv (λ x. x.id) nat_list_eq_equiv };
}

impl<'b> Hash for Held<'b> {
    ghost hash_input = { λ x. fed.slice fed.u8 x.id };

    ghost respects_eq = { λ x y same. ap (fed.slice fed.u8) ((bytes_decides x.id y.id).0 same) };

    fn hash<H: Hasher>(&self, state: &mut H) {
        self.id.as_slice().hash(state);
    }
}

/// An id that few requests have, copied to a place of its own.
fn boxed(alloc: Global, id: Option<&[u8]>) -> Result<Option<Box<Bytes>>, AllocError>
    ensures { IfOk result (λ boxed.
        option_map (λ id. id.value) boxed ≡ option_map (λ id. id.now) id.entry) }
{
    match id {
        Some(id) => Ok(Some(Box::new(alloc, Bytes::copy(alloc, id)?)?)),
        None => Ok(None),
    }
}

impl<'b> Held<'b> {
    /// A request, with its ids copied.
    ///
    /// # Errors
    ///
    /// `AllocError` for want of memory.
    pub(crate) fn of(alloc: Global, item: &ItemRef<'_>) -> Result<Held<'static>, AllocError>
        ensures { IfOk result (λ held. held ≡ item.now) }
    {
        Ok(Held {
            id: Id::of(alloc, item.id)?,
            orig: boxed(alloc, item.orig)?,
            number: item.number,
            letter: item.letter,
        })
    }

    /// What an id is looked up by; it takes no memory.
    pub(crate) fn with_id(id: &'b [u8]) -> Held<'b>
        ensures { result.id ≡ id.now }
    {
        Held {
            id: Id::Lent(id),
            orig: None,
            number: 0,
            letter: 0,
        }
    }

    /// Its OrigClOrdID(41).
    pub(crate) fn orig(&self) -> Option<&[u8]>
        ensures { option_map (λ orig. orig.now) result ≡ self.now.orig }
    {
        match &self.orig {
            Some(orig) => Some(orig.as_slice()),
            None => None,
        }
    }

    /// MsgSeqNum(34) of the client's message and its MsgType(35).
    pub(crate) fn number(&self) -> (u32, u8)
        ensures { result ≡ (self.now.number, self.now.letter) }
    {
        (self.number, self.letter)
    }
}
