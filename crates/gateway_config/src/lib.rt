//! The configuration of the gateway: a TOML text of four names, two numbers of seconds and a
//! minute of the day.
#![tactic(auto)]

mod config;
mod reading;

pub use config::{Config, ConfigFault, ConfigKey};
pub use reading::{DEFAULT_HEART, DEFAULT_WINDOW, MAX_HEART, MAX_RESET, MAX_WINDOW, read_config};
