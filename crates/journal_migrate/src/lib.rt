//! A journal of format 1 as one of format 2.
//!
//! Format 1 is what fixgate wrote up to 0.12: its records say no day. What it stands for is
//! `JournalOf1` of `specs/Format1.antt`, beside `JournalOf` of pair_journal.
#![tactic(auto)]

pub mod laws;
mod migrating;
mod records;
mod walk;

pub use migrating::{MigrateError, migrate_journal};
