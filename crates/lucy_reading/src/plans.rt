//! What plan texts say.

ghost use Rattle.std.specs.Prelude.{◌≡◌, IfOk};
ghost use Rattle.lucy_names.specs.Plans.{AreNamesOf};
ghost use Rattle.lucy_reading.specs.Plans.{plan_read, tree_read, tree_meant};
ghost use Rattle.lucy_reading.specs.Outcomes.{Reads};

use crate::faults::{refuse_elaboration, refuse_syntax};
use crate::refusal::Refusal;
use lucy_elaborate::elaborate;
use lucy_names::Names;
use lucy_plan::Plan;
use lucy_syntax::parse;
use lucy_tree::Tree;
use std::alloc::Global;

// The tree of a text.
#[tactic(auto, unfolding(crate::specs::Plans::tree_read))]
fn read_tree(alloc: Global, name: &str, text: &[u8]) -> Result<Tree, Refusal>
    ensures { Reads (λ tree. tree) (tree_read name.now text.now) result }
{
    match parse(alloc, text) {
        Ok(tree) => Ok(tree),
        Err(fault) => Err(refuse_syntax(alloc, name, fault)),
    }
}

// The plan of a tree, and its names.
#[tactic(auto, unfolding(crate::specs::Plans::tree_meant))]
fn mean_tree(alloc: Global, name: &str, tree: &Tree) -> Result<(Plan, Names), Refusal>
    ensures read { Reads (λ found. found) (tree_meant name.now tree.now) result }
    ensures names { IfOk result (λ found. AreNamesOf found.0 found.1) }
{
    match elaborate(alloc, tree) {
        Ok(found) => Ok(found),
        Err(fault) => Err(refuse_elaboration(alloc, name, fault)),
    }
}

/// The plan of a text, and its names.
///
/// # Errors
///
/// `Bad` with the line of the first fault, where the text has one: first what keeps it
/// from having a tree, then what keeps the tree from giving a plan; `OutOfMemory`.
#[tactic(auto, unfolding(crate::specs::Plans::plan_read))]
pub fn read_plan(alloc: Global, name: &str, text: &[u8]) -> Result<(Plan, Names), Refusal>
    ensures read { Reads (λ found. found) (plan_read name.now text.now) result }
    ensures names { IfOk result (λ found. AreNamesOf found.0 found.1) }
{
    let tree = read_tree(alloc, name, text)?;
    mean_tree(alloc, name, &tree)
}
