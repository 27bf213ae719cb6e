//! How a configuration is read.

ghost use Rattle.std.specs.Prelude.{◌≡◌, ◌≢◌, map, option_map, IfErr, Some, None};
ghost use Rattle.std.specs.Prelude.{if◌then◌else◌};
ghost use Rattle.std.specs.List.{list_all, list_any};
ghost use Rattle.std.specs.Str.{bytes_eq};
ghost use Rattle.toml.specs.View.{table_view, view};
ghost use Rattle.gateway_config.specs.Reading.{value_of, is_printable, is_name, name_in, seconds_in};
ghost use Rattle.gateway_config.specs.Reading.{minute_in};
ghost use Rattle.gateway_config.specs.Reading.{has_only, is_table_of, is_known, IsRead, Reads};

use crate::{Config, ConfigFault, ConfigKey};
use order_meaning::{Name, Names};
use std::alloc::Global;
use toml::{Table, Value};

/// HeartBtInt(108) to the venue where it is not said, in seconds.
pub const DEFAULT_HEART: u32 = 30;

/// The most seconds of HeartBtInt(108).
pub const MAX_HEART: u32 = 3600;

/// How far SendingTime(52) may be off where it is not said, in seconds.
pub const DEFAULT_WINDOW: u32 = 120;

/// The most seconds that SendingTime(52) may be off.
pub const MAX_WINDOW: u32 = 86_400;

/// The last minute of a day.
pub const MAX_RESET: u32 = 1_439;

// What stands at a key of a table of the document.
fn value_of<'a>(document: &'a Value, table_name: &str, name: &str) -> Option<&'a Value>
    ensures { option_map (λ value. view value.now) result
        ≡ value_of table_name.now name.now (view document.now) }
{
    document.get(table_name)?.get(name)
}

// Whether each byte is printable, and no space.
fn is_printable(text: &[u8]) -> bool
    ensures { result ≡ list_all is_printable text.now }
{
    text.iter().all(|byte| 33 <= *byte && *byte <= 126)
}

// A text of 1 to 35 printable bytes.
fn name_of(text: &str) -> Option<Name>
    ensures { result ≡ (if is_name text.now then Some text.now else None) }
{
    let bytes = text.as_bytes();
    if is_printable(bytes) {
        Name::new(bytes)
    } else {
        None
    }
}

// The name at a key.
fn name_at(document: &Value, table_name: &str, name: &str) -> Option<Name>
    ensures { result ≡ name_in (value_of table_name.now name.now (view document.now)) }
{
    match value_of(document, table_name, name) {
        Some(Value::String(text)) => name_of(text.as_str()),
        _ => None,
    }
}

// The whole number of seconds at a key, up to a bound, or the default.
fn seconds_at(
    document: &Value,
    table_name: &str,
    name: &str,
    default: u32,
    most: u32,
) -> Option<u32>
    ensures { result
        ≡ seconds_in default most (value_of table_name.now name.now (view document.now)) }
{
    match value_of(document, table_name, name) {
        None => Some(default),
        Some(Value::Integer(seconds)) if 0 <= *seconds && *seconds <= i64::from(most) => {
            Some(*seconds as u32)
        }
        Some(_) => None,
    }
}

// The minute of the day at a key, where one is said.
fn minute_at(document: &Value, table_name: &str, name: &str) -> Option<Option<u32>>
    ensures { result ≡ minute_in (value_of table_name.now name.now (view document.now)) }
{
    match value_of(document, table_name, name) {
        None => Some(None),
        Some(Value::Integer(minute)) if 0 <= *minute && *minute <= i64::from(MAX_RESET) => {
            Some(Some(*minute as u32))
        }
        Some(_) => None,
    }
}

// Whether a name is one of these.
fn is_one_of(name: &str, known: &[&str]) -> bool
    ensures { result ≡ list_any (bytes_eq name.now) (map (λ key. key.now) known.now) }
{
    match known {
        [] => false,
        [first, rest @ ..] => name == *first || is_one_of(name, rest),
    }
}

// Whether each key of a table is one of these.
fn has_only(table: &Table, known: &[&str]) -> bool
    ensures { result ≡ has_only (map (λ key. key.now) known.now) (table_view table.now) }
{
    for name in table.keys() {
        if !is_one_of(name.as_str(), known) {
            return false;
        }
    }
    true
}

// Whether this is no value, or a table with no other keys than these.
fn is_table_of(value: Option<&Value>, known: &[&str]) -> bool
    ensures { result ≡ is_table_of (map (λ key. key.now) known.now)
        (option_map (λ value. view value.now) value.entry) }
{
    match value {
        None => true,
        Some(Value::Table(table)) => has_only(table, known),
        Some(_) => false,
    }
}

// Whether no table and no key stands there that the configuration does not have.
fn is_known(document: &Value) -> bool
    ensures { result ≡ is_known (view document.now) }
{
    is_table_of(Some(document), &["client", "venue", "gate"])
        && is_table_of(document.get("client"), &["our", "peer"])
        && is_table_of(document.get("venue"), &["our", "peer", "heart"])
        && is_table_of(document.get("gate"), &["window", "reset"])
}

// The configuration of a document, or its first wrong key.
fn config_of(document: &Value) -> Result<Config, ConfigKey>
    ensures read { IsRead (view document.now) result }
    ensures of_document { IfErr result (λ key. key ≢ ConfigKey.NotToml) }
{
    let names = Names {
        client_our: name_at(document, "client", "our").ok_or(ConfigKey::ClientOur)?,
        client_peer: name_at(document, "client", "peer").ok_or(ConfigKey::ClientPeer)?,
        venue_our: name_at(document, "venue", "our").ok_or(ConfigKey::VenueOur)?,
        venue_peer: name_at(document, "venue", "peer").ok_or(ConfigKey::VenuePeer)?,
    };
    let heart = seconds_at(document, "venue", "heart", DEFAULT_HEART, MAX_HEART).ok_or(
        ConfigKey::VenueHeart,
    )?;
    let window = seconds_at(document, "gate", "window", DEFAULT_WINDOW, MAX_WINDOW).ok_or(
        ConfigKey::Window,
    )?;
    let reset = minute_at(document, "gate", "reset").ok_or(ConfigKey::Reset)?;
    if !is_known(document) {
        return Err(ConfigKey::Unknown);
    }
    Ok(Config {
        names,
        heart,
        window,
        reset,
    })
}

/// Reads a configuration, a TOML text: the names `client.our`, `client.peer`, `venue.our` and
/// `venue.peer`, each of 1 to 35 bytes from 33 to 126, `venue.heart` of 0 to 3,600 seconds, 30
/// where it is not said, `gate.window` of 0 to 86,400 seconds, 120 where it is not said, and
/// `gate.reset`, the minute of the UTC day from 0 to 1,439 at which a session day begins, none
/// where it is not said.
///
/// # Errors
///
/// `Key(NotToml)` exactly where the text is no TOML document; then the first of the keys, in this
/// order, that is missing or wrong; then `Unknown` exactly where any other table or key stands.
/// `NoMemory` for want of memory.
#[tactic(auto, using(crate::proofs::Tables::reads_config, crate::proofs::Tables::reads_key))]
pub fn read_config(alloc: Global, text: &[u8]) -> Result<Config, ConfigFault>
    ensures { Reads text.now result }
{
    match toml::table_from_slice(alloc, text) {
        Ok(table) => match config_of(&Value::Table(table)) {
            Ok(config) => Ok(config),
            Err(key) => Err(ConfigFault::Key(key)),
        },
        Err(error) if error.is_memory() => Err(ConfigFault::NoMemory),
        Err(_) => Err(ConfigFault::Key(ConfigKey::NotToml)),
    }
}
