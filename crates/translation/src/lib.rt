//! What translations of either direction have in common: the header that they carry, how long they
//! may be, why there is none, and the way from a body to a frame.
#![tactic(auto)]

mod error;
mod head;
mod lengths;
mod translating;

pub use error::{TranslateError, faulty, lacking};
pub use head::{HeadDown, msg_type, put_head_down, put_head_up};
pub use lengths::MAX_CONTENT;
pub use translating::{Translating, translate};
