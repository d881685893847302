//! Plans of texts, calls, and words of rows.

use lucy_plan::{Call, Plan};
use lucy_reading::read_plan;
use sqlite_items::Items;
use std::alloc::{AllocError, Global};
use std::sync::Arc;

/// The plan of a text, or `None` where it is no plan.
pub fn plan_of(alloc: Global, text: &str) -> Option<Plan> {
    match read_plan(alloc, "plan", text.as_bytes()) {
        Ok((plan, names)) => {
            drop(names);
            Some(plan)
        }
        Err(_) => None,
    }
}

/// The same, to be shared.
pub fn shared_plan(alloc: Global, text: &str) -> Option<Arc<Plan>> {
    let plan = plan_of(alloc, text)?;
    Arc::new(alloc, plan).ok()
}

/// A call of the first transaction with one argument.
pub fn call(alloc: Global, argument: i64) -> Result<Call, AllocError> {
    let arguments = Items::from_slice(alloc, &[argument])?;
    Ok(Call { txn: 0, arguments })
}

/// What `yes` and `no` say.
pub fn yes_or_no(word: &str) -> Option<bool> {
    match word {
        "yes" => Some(true),
        "no" => Some(false),
        _ => None,
    }
}

/// The first row of a text that is not right, or that the test does not understand.
pub fn wrong_row(
    alloc: Global,
    rows: &'static str,
    is_right: fn(Global, &str) -> Option<bool>,
) -> Option<&'static str>
    requires { IsAlwaysCallable is_right }
{
    for row in rows.lines() {
        if is_right(alloc, row) != Some(true) {
            return Some(row);
        }
    }
    None
}

/// Numbers with a space between two.
pub fn numbers_of(alloc: Global, text: &str) -> Option<Vec<i64>> {
    let mut numbers = Vec::new(alloc);
    for word in text.split(' ') {
        numbers.push(word.parse::<i64>().ok()?).ok()?;
    }
    Some(numbers)
}
