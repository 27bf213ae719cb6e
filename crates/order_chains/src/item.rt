//! One forwarded request.

ghost use Rattle.std.specs.Prelude.{◌≡◌, IfOk};
ghost use Rattle.std.specs.Option.{option_map};

use order_meaning::Bytes;
use std::alloc::{AllocError, Global};
use std::marker::Model;

/// A forwarded New Order (D), Order Cancel Request (F) or Order Cancel/Replace Request (G).
#[derive(Debug, Drop)]
pub struct ChainItem {
    /// ClOrdID(11).
    pub id: Bytes,
    /// OrigClOrdID(41); a D has none.
    pub orig: Option<Bytes>,
    /// MsgSeqNum(34) of the client's message, from 1 to 999,999,999.
    pub number: u32,
    /// MsgType(35): `D`, `F` or `G`.
    pub letter: u8,
}

/// The same where the bytes of its ids stand, seen as it.
#[derive(Drop)]
pub struct ItemRef<'b> {
    /// ClOrdID(11).
    pub id: &'b [u8],
    /// OrigClOrdID(41).
    pub orig: Option<&'b [u8]>,
    /// MsgSeqNum(34) of the client's message.
    pub number: u32,
    /// MsgType(35).
    pub letter: u8,
}

impl<'b> Model for ItemRef<'b> {
    ghost use Rattle.std.specs.Option.{option_map};
    ghost use Rattle.order_chains.specs.declared.item.ChainItem.{ChainItem};

    ghost Value = { ChainItem };

    ghost view = { λ i. record {
      id = i.id.now;
      orig = option_map (λ orig. orig.now) i.orig;
      number = i.number;
      letter = i.letter;
    } };
}

/// An id, copied.
pub(crate) fn copied(alloc: Global, id: Option<&[u8]>) -> Result<Option<Bytes>, AllocError>
    ensures { IfOk result (λ copied. copied ≡ option_map (λ id. id.now) id.entry) }
{
    match id {
        Some(id) => Ok(Some(Bytes::copy(alloc, id)?)),
        None => Ok(None),
    }
}

impl ChainItem {
    /// The same where its bytes stand; it takes no memory.
    pub fn as_ref(&self) -> ItemRef<'_>
        ensures { result ≡ self.now }
    {
        let orig = match &self.orig {
            Some(orig) => Some(orig.as_slice()),
            None => None,
        };
        ItemRef {
            id: self.id.as_slice(),
            orig,
            number: self.number,
            letter: self.letter,
        }
    }
}

impl<'b> ItemRef<'b> {
    /// The item, copied.
    ///
    /// # Errors
    ///
    /// `AllocError` for want of memory.
    pub fn to_item(&self, alloc: Global) -> Result<ChainItem, AllocError>
        ensures { IfOk result (λ item. item ≡ self.now) }
    {
        Ok(ChainItem {
            id: Bytes::copy(alloc, self.id)?,
            orig: copied(alloc, self.orig)?,
            number: self.number,
            letter: self.letter,
        })
    }
}
