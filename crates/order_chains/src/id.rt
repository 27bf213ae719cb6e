//! The id of a request as the list of them holds it.

ghost use Rattle.std.specs.Prelude.{◌≡◌, IfOk, IfSome};
ghost use Rattle.order_chains.specs.Id.{bytes_of};

use std::alloc::{AllocError, Global};
use std::marker::Model;

/// The most bytes of a short id.
pub(crate) const MAX_SHORT: usize = 22;

/// An id of at most 22 bytes, seen as their list.
#[derive(Drop)]
pub(crate) struct ShortId {
    len: u8,
    bytes: [u8; MAX_SHORT],
}

impl Model for ShortId {
    ghost use Rattle.std.specs.Prelude.{ℕ, List, ◌≤◌, take};

    ghost Value = { List ℕ };

    ghost view = { λ id. take id.len id.bytes };

    ghost use Rattle.order_chains.specs.declared.id.TheConstants.{MAX_SHORT};

    ghost invariant = { λ id. id.len ≤ MAX_SHORT };
}

impl ShortId {
    /// An id of these bytes; none where there are more than 22.
    fn of(id: &[u8]) -> Option<ShortId>
        ensures { IfSome result (λ short. short ≡ id.now) }
    {
        if id.len() > MAX_SHORT {
            return None;
        }
        let mut bytes = [0; MAX_SHORT];
        bytes[..id.len()].copy_from_slice(id);
        Some(ShortId {
            len: id.len() as u8,
            bytes,
        })
    }

    /// Its bytes.
    fn as_slice(&self) -> &[u8]
        ensures { result.now ≡ self.now }
    {
        &self.bytes[..usize::from(self.len)]
    }
}

/// An id. A short one stands in it, with no allocation, and one that is looked up is lent.
#[derive(Drop)]
pub(crate) enum Id<'b> {
    Short(ShortId),
    Long(Box<Vec<u8>>),
    Lent(&'b [u8]),
}

impl<'b> Id<'b> {
    /// An id of these bytes, copied.
    ///
    /// # Errors
    ///
    /// `AllocError` for want of memory.
    pub(crate) fn of(alloc: Global, id: &[u8]) -> Result<Id<'static>, AllocError>
        ensures { IfOk result (λ held. bytes_of held ≡ id.now) }
    {
        match ShortId::of(id) {
            Some(short) => Ok(Id::Short(short)),
            None => {
                let bytes = Vec::from_slice(alloc, id)?;
                Ok(Id::Long(Box::new(alloc, bytes)?))
            }
        }
    }

    /// Its bytes.
    pub(crate) fn as_slice(&self) -> &[u8]
        ensures { result.now ≡ bytes_of self.now }
    {
        match self {
            Id::Short(id) => id.as_slice(),
            Id::Long(id) => id.as_slice(),
            Id::Lent(id) => id,
        }
    }
}
