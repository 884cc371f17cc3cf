//! Checks that the tests of all modules share.

use std::alloc::Global;
use std::fmt::Display;

/// Asserts that a test holds for each row of a table.
macro_rules! assert_rows {
    ($rt:expr; $rows:expr, |$row:ident| $holds:expr) => {{
        let rows = $rows;
        for at in 0..rows.len() {
            let $row = &rows[at];
            assert!($rt; $holds, "{}", at);
        }
    }};
}

pub(crate) use assert_rows;

/// Returns whether a value is printed as this text.
pub(crate) fn is_printed_as<T: Display>(alloc: Global, shown: &T, expected: &str) -> bool {
    match format!(in alloc; "{shown}") {
        Ok(text) => text.as_str() == expected,
        Err(_) => false,
    }
}
