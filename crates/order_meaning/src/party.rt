//! Parties of an order.

use crate::{Bytes, GroupLines};

/// One line of the Parties group.
#[derive(Debug, Drop)]
pub struct PartyLine {
    /// PartyID(448).
    pub id: Bytes,
    /// PartyRole(452).
    pub role: u32,
}

/// The lines of the Parties group.
pub type Lines = GroupLines<PartyLine>;

/// The three parties that FIX 4.2 has a field for.
#[derive(Debug, Drop)]
pub struct Three {
    /// ClientID(109), the party of role 3.
    pub client: Option<Bytes>,
    /// ExecBroker(76), the party of role 1.
    pub broker: Option<Bytes>,
    /// ClearingFirm(439), the party of role 4.
    pub firm: Option<Bytes>,
}
