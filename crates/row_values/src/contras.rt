//! The brokers on the other side of a trade.

ghost use Rattle.row_values.specs.Contras.{IsContra, IsReadableContra, contra_cells, contras};
ghost use Rattle.message_tables.specs.Tables.{tags_in};

use crate::copies::owned;
use crate::kinds::Kind;
use crate::lines::GroupLine;
use crate::values::{fine_stamp, or_empty, qty, text};
use crate::writing::{put_if, put_text_if};
use field_groups::{Field, put_field};
use message_tables::Need::{Optional, Required};
use message_tables::{Line, RepeatingGroup, Row};
use order_meaning::{Bytes, GroupLines};
use std::alloc::{AllocError, Global};
use typed_fields::{Dec, Stamp};
use value_kinds::ValueKind;
use value_kinds::ValueKind::Id;

/// One line of the brokers on the other side of a trade: NoContraBrokers(382) of FIX 4.2,
/// ContraGrp(382) of FIX 5.0 SP2.
#[derive(Debug, Drop)]
pub struct ContraLine {
    /// ContraBroker(375), 1 to 128 bytes.
    pub broker: Bytes,
    /// ContraTrader(337), 1 to 128 bytes.
    pub trader: Option<Bytes>,
    /// ContraTradeQty(437), not negative.
    pub qty: Option<Dec>,
    /// ContraTradeTime(438).
    pub time: Option<Stamp>,
}

/// The brokers on the other side of a trade.
pub type Contras = GroupLines<ContraLine>;

/// A row that is judged by itself.
macro_rules! row {
    ($tag:literal, $kind:expr, $need:expr) => {
        Row {
            tag: $tag,
            kind: Kind::Value($kind),
            need: $need,
        }
    };
}

/// The rows of a line of contra brokers, with a time of this kind.
#[rattlefmt::skip]
macro_rules! contra_rows {
    ($time:expr) => {
        [
            row!(375, Id, Required), // ContraBroker
            row!(337, Id, Optional), // ContraTrader
            row!(437, ValueKind::Qty, Optional), // ContraTradeQty
            row!(438, $time, Optional), // ContraTradeTime
        ]
    };
}

/// The rows of such a line of FIX 4.2.
pub const CONTRA_ROWS: [Row<Kind>; 4] = contra_rows!(ValueKind::Stamp);

const FINE_CONTRA_ROWS: [Row<Kind>; 4] = contra_rows!(ValueKind::FineStamp);

/// ContraGrp(382) of FIX 5.0 SP2; ContraLegRefID(655) is passed over.
pub const CONTRAS: RepeatingGroup<Kind> = RepeatingGroup {
    count: 382,
    rows: &FINE_CONTRA_ROWS,
    skipped: &[655],
};

static CONTRAS_GROUP: RepeatingGroup<Kind> = CONTRAS;

impl GroupLine for ContraLine {
    ghost tags = { tags_in contras };

    ghost is_line = { IsContra };

    ghost is_readable = { IsReadableContra };

    ghost cells = { contra_cells };

    fn group() -> &'static RepeatingGroup<Kind> {
        &CONTRAS_GROUP
    }

    fn read(alloc: Global, fields: &[Field<'_>]) -> Result<ContraLine, AllocError> {
        let line = Line { fields };
        let broker = owned(alloc, text(&line, 375, &Id))?;
        let trader = owned(alloc, text(&line, 337, &Id))?;
        Ok(ContraLine {
            broker: or_empty(alloc, broker),
            trader,
            qty: qty(&line, 437),
            time: fine_stamp(&line, 438),
        })
    }

    #[tactic(auto, using(crate::proofs::Contents::still_kept))]
    fn write(&self, out: &mut Vec<u8>) -> Result<(), AllocError> {
        put_field(out, 375, self.broker.as_slice())?;
        put_text_if(out, 337, &self.trader)?;
        put_if(out, 437, &self.qty)?;
        put_if(out, 438, &self.time)
    }
}
