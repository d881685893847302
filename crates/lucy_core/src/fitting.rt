ghost use Rattle.std.specs.Prelude.{◌≡◌, ◌↔◌, ◌&&◌, nat_le, length, IsTrue};
ghost use Rattle.std.specs.List.{list_all};
ghost use Rattle.lucy_plan.specs.Calls.{call_fits};
ghost use Rattle.lucy_core.specs.Worlds.{are_calls_of, IsWorkOf};

use lucy_calls::Work;
use lucy_plan::{Call, Plan, fits};
use sqlite_items::Items;

/// Whether calls fit a plan.
fn are_fitting(plan: &Plan, calls: &[Call]) -> bool
    ensures { result ≡ list_all (call_fits plan.now) calls.now }
{
    for call in calls {
        if !fits(plan, call) {
            return false;
        }
    }
    true
}

/// Whether the calls of each list fit a plan, and are at most 4,096.
fn are_lists_of(plan: &Plan, work: &[Items<Call>]) -> bool
    ensures { result ≡ list_all (are_calls_of plan.now) work.now }
{
    for calls in work {
        if calls.len() > 4096 || !are_fitting(plan, calls.as_slice()) {
            return false;
        }
    }
    true
}

/// Whether a work can be run under a plan: each call fits the plan, and there are 1 to 16 replicas,
/// with at most 4,096 calls each.
pub fn is_work_of(plan: &Plan, work: &Work) -> bool
    ensures { IsTrue result ↔ IsWorkOf plan.now work.now.lists }
{
    let lists = work.lists.as_slice();
    lists.len() >= 1 && lists.len() <= 16 && are_lists_of(plan, lists)
}
