//! Rows of a table.

use std::alloc::Global;

/// The first row of a text that is not right, or that the test does not understand.
pub fn wrong_row(
    alloc: Global,
    rows: &'static str,
    is_right: fn(Global, &str) -> Option<bool>,
) -> Option<&'static str>
    requires { IsAlwaysCallable is_right }
{
    for row in rows.lines() {
        if is_right(alloc, row) != Some(true) {
            return Some(row);
        }
    }
    None
}
