//! Translating the body of a request of FIX 4.2 to FIX 5.0 SP2.

ghost use Rattle.std.specs.Prelude.{◌≡◌, ◌++◌, ℕ, List, IfErr, OnErr, OnOk};
ghost use Rattle.field_groups.specs.Field.{Field};
ghost use Rattle.request_translate.specs.Translation.{IsRefused, IsRefusedByCheck};
ghost use Rattle.request_translate.specs.Translation.{IsTranslation, up as way};
ghost use Rattle.translation.specs.Bodies.{Goes};

use crate::checking::{check_fields, good};
use dict_fix42::RequestTables;
use field_groups::{Fields, Split, split_into};
use frame_grammar::Kind;
use request_rules::put_up;
use std::alloc::{AllocError, Global};
use translation::{TranslateError, Translating, lacking, put_head_up, translate};

/// What translates requests up.
#[derive(Drop)]
struct Up {
    tables: RequestTables,
}

impl Translating for Up {
    ghost course = { λ _. way };

    fn kind(&self) -> Kind {
        Kind::Fixt11
    }

    fn put_head(
        &self,
        body: &[u8],
        fields: &Fields<'_>,
        out: &mut Vec<u8>,
    ) -> Result<(), AllocError> {
        put_head_up(body, fields, out)
    }

    #[tactic(auto, using(crate::proofs::GoodFields::put))]
    fn put(&self, split: &Split<'_>, out: &mut Vec<u8>) -> Result<(), TranslateError> {
        let good = good(&self.tables, split)?;
        match put_up(&good, out) {
            Ok(()) => Ok(()),
            Err(lack) => Err(lacking(lack)),
        }
    }

    fn laws(&self) {}
}

/// Translates bodies. It keeps the memory for one body from each call to the next.
#[derive(Drop)]
pub struct Translator {
    alloc: Global,
    way: Up,
    up: Vec<u8>,
}

impl Translator {
    /// A translator, which takes its memory by `alloc`, and none yet.
    pub fn new(alloc: Global) -> Translator {
        Translator {
            alloc,
            way: Up {
                tables: RequestTables::new(),
            },
            up: Vec::new(alloc),
        }
    }

    /// Appends to `out` the FIXT 1.1 frame of the request of FIX 5.0 SP2 that means what a body of
    /// FIX 4.2 means.
    ///
    /// The body is that of a New Order - Single(D), an Order Cancel Request(F), an Order
    /// Cancel/Replace Request(G) or an Order Status Request(H). The frame has its MsgType(35), of
    /// its header the fields 49, 56, 34, 43, 97, 52 and 122 that it has, as they stand and in this
    /// order, and then the one canonical content that means the same (FIX 5.0 SP2, volume 4). It
    /// has at most 8,219 bytes.
    ///
    /// # Errors
    ///
    /// `Faulty` for the first fault of the body, `Lacking` where it says what FIX 5.0 SP2 cannot
    /// say, `TooLong` where the content would have more than 7,936 bytes or the body more than
    /// 8,192, each exactly there; `NoMemory` for want of memory. `out` is then as it was.
    pub fn translate(&mut self, body: &[u8], out: &mut Vec<u8>) -> Result<(), TranslateError>
        ensures ok { OnOk result ((text : List ℕ)
            × IsTranslation body.now text × (out.new.items ≡ out.old.items ++ text)) }
        ensures refused { IfErr result (IsRefused body.now) }
        ensures err { OnErr result (out.new.items ≡ out.old.items) }
    {
        translate(&self.way, self.alloc, body, &mut self.up, out)
    }

    /// Whether a body of FIX 4.2 has a translation, of whatever length.
    ///
    /// # Errors
    ///
    /// `Faulty` and `Lacking` as `translate` has them; `NoMemory` for want of memory.
    pub fn check(&self, body: &[u8]) -> Result<(), TranslateError>
        ensures ok { OnOk result ((fields : List Field) × Goes way body.now fields) }
        ensures refused { IfErr result (IsRefusedByCheck body.now) }
    {
        let mut split = Split::new(self.alloc);
        split_into(body, &mut split)?;
        check_fields(&self.way.tables, &split)
    }
}
