//! A sound message of a table is one that can be written: what is written of it is read again as
//! the same message, and what is read of the fields of a body is sound. There is no code here: the
//! translators name this in their contracts, and their proofs stand on the lemmas of this crate.
#![tactic(auto)]
