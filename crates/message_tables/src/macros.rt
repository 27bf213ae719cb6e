//! Rows and tables as they are listed.

/// A row: the tag of its field, the kind of its values, and whether each message says it; where
/// that is not told, a message may.
#[macro_export]
macro_rules! row {
    ($tag:literal, $kind:expr) => {
        $crate::row!($tag, $kind, $crate::Need::Optional)
    };
    ($tag:literal, $kind:expr, $need:expr) => {
        $crate::Row {
            tag: $tag,
            kind: $kind,
            need: $need,
        }
    };
}

/// The item of a row.
#[macro_export]
macro_rules! one {
    ($tag:literal, $kind:expr, $need:expr) => {
        $crate::Item::One($crate::row!($tag, $kind, $need))
    };
}

/// The table of a letter: its header, its items, and whether a field of no row is outside the
/// profile.
#[macro_export]
macro_rules! table {
    ($letter:literal, $header:ident, $items:ident, $strict:literal) => {
        $crate::Table {
            letter: $letter,
            header: &$header,
            items: &$items,
            strict: $strict,
        }
    };
}
