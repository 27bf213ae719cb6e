//! The list of forwarded requests, with a look-up by ClOrdID.

ghost use Rattle.std.specs.Prelude.{◌≡◌, ◌-◌, ◌<◌, [], length, take, IfOk, OnOk};
ghost use Rattle.std.specs.Prelude.{OnErr};
ghost use Rattle.std.specs.Option.{option_map};
ghost use Rattle.order_chains.specs.Chains.{has_id, item_with, orig_of, number_of, with_item};
ghost use Rattle.order_chains.specs.Chains.{AreDistinct};

use crate::ItemRef;
use crate::held::Held;
use indexmap::IndexSet;
use std::alloc::{AllocError, Global};
use std::marker::Model;

/// How many items have room from the start.
const FIRST_ROOM: usize = 64;

/// The requests of type D, F and G that were forwarded, in order, seen as the list of them. No two
/// have one id.
#[derive(Drop)]
pub struct Chains {
    items: IndexSet<Held<'static>>,
}

impl Model for Chains {
    ghost use Rattle.std.specs.Prelude.{List};
    ghost use Rattle.order_chains.specs.declared.item.ChainItem.{ChainItem};

    ghost Value = { List ChainItem };

    ghost view = { λ c. c.items.keys };

    ghost use Rattle.order_chains.specs.Chains.{AreDistinct};

    ghost invariant = { λ c. AreDistinct c.items.keys };
}

impl Chains {
    /// No item, and room for the first 64.
    ///
    /// # Errors
    ///
    /// `AllocError` for want of memory.
    pub fn new(alloc: Global) -> Result<Chains, AllocError>
        ensures { IfOk result (λ chains. chains ≡ []) }
    {
        Ok(Chains {
            items: IndexSet::with_capacity(alloc, FIRST_ROOM)?,
        })
    }

    /// Adds an item at the end, unless one with its id is there. Each of its ids is copied once.
    ///
    /// # Errors
    ///
    /// `AllocError` for want of memory; then the items are as before.
    pub fn add(&mut self, item: &ItemRef<'_>) -> Result<(), AllocError>
        ensures ok { OnOk result (self.new ≡ with_item self.old item.now) }
        ensures distinct { OnOk result (AreDistinct self.new) }
        ensures err { OnErr result (self.new ≡ self.old) }
    {
        let alloc = *self.items.allocator();
        let held = Held::of(alloc, item)?;
        let _ = self.items.insert(held)?;
        Ok(())
    }

    /// Takes out the last item of a list that is not empty; it takes no memory.
    pub fn undo(&mut self)
        requires { 0 < length self.old }
        ensures items { self.new ≡ take (length self.old - 1) self.old }
        ensures distinct { AreDistinct self.new }
    {
        let _ = self.items.pop();
    }

    /// Takes out all items; it takes no memory.
    pub fn clear(&mut self)
        ensures { self.new ≡ [] }
    {
        self.items.clear();
    }

    // The item with this ClOrdID(11). It is found by its place, since the id is lent for the look-up
    // alone.
    fn held(&self, id: &[u8]) -> Option<&Held<'static>>
        ensures { option_map (λ held. held.now) result ≡ item_with self.now id.now }
    {
        let (place, _) = self.items.get_full(&Held::with_id(id))?;
        self.items.get_index(place)
    }

    /// The OrigClOrdID(41) of the item with this ClOrdID(11): none where no item has the id, and
    /// where the item has none, as that of a D. It takes no memory.
    pub fn orig_of(&self, id: &[u8]) -> Option<&[u8]>
        ensures { option_map (λ orig. orig.now) result ≡ orig_of self.now id.now }
    {
        self.held(id)?.orig()
    }

    /// MsgSeqNum(34) of the client's message and MsgType(35) of the item with this ClOrdID(11),
    /// where there is one. It takes no memory.
    pub fn number_of(&self, id: &[u8]) -> Option<(u32, u8)>
        ensures { result ≡ number_of self.now id.now }
    {
        Some(self.held(id)?.number())
    }

    /// Whether an item has this ClOrdID(11). It takes no memory.
    pub fn has(&self, id: &[u8]) -> bool
        ensures has { result ≡ has_id self.now id.now }
        ensures distinct { AreDistinct self.now }
    {
        let _ = &self.items; // brings the invariant into scope
        self.held(id).is_some()
    }
}
