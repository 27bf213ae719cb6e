//! The name of what a configuration has and should not have.

use std::alloc::Global;
use toml::{Table, Value};

/// The keys of each table; those of the text itself stand under no name.
const KNOWN: [(&str, &[&str]); 4] = [
    ("", &["client", "venue", "gate"]),
    ("client", &["our", "peer"]),
    ("venue", &["our", "peer", "heart"]),
    ("gate", &["window", "reset"]),
];

// Whether a name is one of these.
fn is_one_of(name: &str, known: &[&str]) -> bool {
    known.iter().any(|key| *key == name)
}

// The first key of a table that is none of these.
fn other_key<'a>(table: &'a Table, known: &[&str]) -> Option<&'a str> {
    for key in table.keys() {
        if !is_one_of(key.as_str(), known) {
            return Some(key.as_str());
        }
    }
    None
}

// The name of a key in a table, if it has one.
fn named(alloc: Global, table: &str, key: &str) -> Option<String> {
    let name = if table.is_empty() {
        String::from_str(alloc, key)
    } else {
        format!(in alloc; "{table}.{key}")
    };
    name.ok()
}

/// The first key of a configuration that was refused as `Unknown`; none where memory is refused.
pub(crate) fn unknown_key(alloc: Global, text: &[u8]) -> Option<String> {
    let Ok(document) = toml::table_from_slice(alloc, text) else {
        return None;
    };
    for (name, known) in &KNOWN {
        if name.is_empty() {
            if let Some(key) = other_key(&document, known) {
                return named(alloc, name, key);
            }
            continue;
        }
        match document.get(*name) {
            Some(Value::Table(table)) => {
                if let Some(key) = other_key(table, known) {
                    return named(alloc, name, key);
                }
            }
            Some(_) => return named(alloc, "", name),
            None => {}
        }
    }
    None
}
