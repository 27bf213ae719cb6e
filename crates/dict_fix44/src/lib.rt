//! The order messages of FIX 4.4 by the profile's tables: requests (D, F, G, H), reports (8, 9) and
//! refusals (3, j).
#![tactic(auto)]

pub mod laws;
mod tables;

pub use tables::{
    RequestTables, business_reject, cancel_request, new_order, refusal_table, replace_request,
    session_reject, status_request,
};
