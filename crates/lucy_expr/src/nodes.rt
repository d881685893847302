ghost use Rattle.std.specs.Prelude.{◌≡◌, ◌+◌, ◌<◌, ◌∷◌, ◌++◌, OnOk, IfOk};
ghost use Rattle.std.specs.Arc.{arc_value};
ghost use Rattle.lucy_expr.specs.Trees.{turn_of, turns};
ghost use Rattle.lucy_expr.specs.Shapes.{tree_of, size, size_of_all, turns_of_all};

use crate::ids::Id;
use crate::turns::Turn;
use lucy_plan::Call;
use std::alloc::{AllocError, Global};
use std::sync::Arc;

/// A node and what it leads to. Nodes are shared.
pub(crate) enum Node {
    Start,
    Apply(Id, Call, Arc<Node>),
    Merge(Arc<Node>, Arc<Node>),
}

impl Drop for Node {
    /// Lets go a chain of nodes one by one. Right parts of merges are let go each by a call of its
    /// own, so a deep row of them needs a deep stack: see `let_go`.
    fn drop(mut self) {
        loop {
            match self {
                Node::Start => return,
                Node::Apply(_, _, inner) => match Arc::into_inner(inner) {
                    Some(node) => self = node,
                    None => return,
                },
                Node::Merge(left, right) => {
                    drop(right);
                    match Arc::into_inner(left) {
                        Some(node) => self = node,
                        None => return,
                    }
                }
            }
        }
    }
}

impl Node {
    /// Puts the parts of a node on a list. A part for which there is no room is let go at once.
    fn put_parts(self, waiting: &mut Vec<Arc<Node>>)
        ensures { size_of_all waiting.new.items < size self + size_of_all waiting.old.items }
    {
        match self {
            Node::Start => {}
            Node::Apply(_, _, inner) => {
                let _ = waiting.push(inner);
            }
            Node::Merge(left, right) => {
                let _ = waiting.push(right);
                let _ = waiting.push(left);
            }
        }
    }
}

/// Puts the parts of a node on a list, if nobody else has the node.
fn put_own_parts(node: Arc<Node>, waiting: &mut Vec<Arc<Node>>)
    ensures { size_of_all waiting.new.items < size (arc_value node) + size_of_all waiting.old.items }
{
    if let Some(node) = Arc::into_inner(node) {
        node.put_parts(waiting);
    }
}

/// Lets go a node and all below it that nobody else has, one by one, so that neither a long chain
/// nor a deep tree needs a deep stack. Where there is no memory for the list of those that wait, the
/// rest is let go by `drop`.
pub(crate) fn let_go(alloc: Global, node: Arc<Node>) {
    let mut waiting = Vec::new(alloc);
    put_own_parts(node, &mut waiting);
    while let Some(next) = waiting.pop() {
        put_own_parts(next, &mut waiting);
    }
}

/// A node without its parts.
fn turn(alloc: Global, node: &Node) -> Result<Turn, AllocError>
    ensures { IfOk result (λ t. t ≡ turn_of (tree_of node.now)) }
{
    match node {
        Node::Start => Ok(Turn::Start),
        Node::Apply(id, call, _) => {
            let call = call.copied(alloc)?;
            Ok(Turn::Apply { id: *id, call })
        }
        Node::Merge(_, _) => Ok(Turn::Merge),
    }
}

/// Puts the parts of a node on a stack, the left part on top.
fn push_parts<'a>(stack: &mut Vec<&'a Node>, node: &'a Node) -> Result<(), AllocError>
    ensures { OnOk result (turn_of (tree_of node.now) ∷ turns_of_all stack.new.items
        ≡ turns (tree_of node.now) ++ turns_of_all stack.old.items) }
{
    match node {
        Node::Start => {}
        Node::Apply(_, _, inner) => stack.push(inner)?,
        Node::Merge(left, right) => {
            stack.push(right)?;
            stack.push(left)?;
        }
    }
    Ok(())
}

/// The nodes from the outside inward, each before its parts and a left part before the right one.
pub(crate) fn flat(alloc: Global, node: &Node) -> Result<Vec<Turn>, AllocError>
    ensures { IfOk result (λ v. v.items ≡ turns (tree_of node.now)) }
{
    let mut turns = Vec::new(alloc);
    let mut stack = Vec::new(alloc);
    stack.push(node)?;
    while let Some(next) = stack.pop() {
        turns.push(turn(alloc, next)?)?;
        push_parts(&mut stack, next)?;
    }
    Ok(turns)
}
