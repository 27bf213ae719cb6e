//! What one event decides.

use order_chains::{ChainItem, Chains};
use order_meaning::Side;
use pair_entries::Prepared;
use session_core::Session;
use std::alloc::AllocError;

/// What is to be done at one event. Nothing of it was done yet.
#[derive(Drop)]
pub struct Plan {
    /// The entry to commit; one exactly where a number changes or a day begins.
    pub entry: Option<Prepared>,
    /// The request that joins the chains, where the entry forwards one.
    pub item: Option<ChainItem>,
    /// The client's session afterwards.
    pub client: Session,
    /// The venue's session afterwards.
    pub venue: Session,
    /// What is sent again: to whom, and the first and the last number; nothing where the first is
    /// above the last.
    pub resend: Option<(Side, u32, u32)>,
    /// Whose connection is hung up.
    pub hang_up: Option<Side>,
    /// The chains of a day that begins, which are empty.
    pub fresh: Option<Chains>,
}

/// Why there is no plan.
#[derive(Clone, Copy, Debug, PartialEq, Eq)]
pub enum PlanError {
    /// A message would take a number of this side past 999,999,999.
    NumbersSpent {
        /// Whose number.
        side: Side,
    },
    /// Want of memory.
    NoMemory,
}

impl From<AllocError> for PlanError {
    ghost use Rattle.std.specs.Prelude.{◌≡◌};
    ghost use Rattle.gateway_core.specs.declared.plan.PlanError.TheVariants.{NoMemory};

    ghost from_gives = { λ _ error. error ≡ NoMemory };

    fn from(_error: AllocError) -> PlanError {
        PlanError::NoMemory
    }
}
