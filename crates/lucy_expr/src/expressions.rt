ghost use Rattle.std.specs.Prelude.{◌≡◌, ◌+◌, ◌^◌, ◌<◌, ℕ, max, length, slice_index, IfOk};
ghost use Rattle.lucy_expr.specs.Trees.{Start, Apply, Merge, depth, reach, turns};

use crate::counting::{greater, raise};
use crate::ids::Id;
use crate::nodes::{Node, flat, let_go};
use crate::turns::Turn;
use lucy_plan::Call;
use std::alloc::{AllocError, Global};
use std::marker::Model;
use std::sync::Arc;

/// How a state was made. Contracts see its tree, and its room: the number of replicas whose ids it
/// may have. How its nodes are shared is no part of them.
pub struct Expr {
    node: Arc<Node>,
    deep: u32,
    counts: Arc<Vec<u32>>,
}

impl Model for Expr {
    ghost use Rattle.std.specs.Prelude.{◌≡◌, ◌<◌, ◌^◌, ℕ, vec_len, slice_index};
    ghost use Rattle.std.specs.Arc.{arc_value};
    ghost use Rattle.lucy_expr.specs.Trees.{depth, reach};
    ghost use Rattle.lucy_expr.specs.Expressions.{Expression, expression_code};

    ghost Value = { Expression };

    ghost coded = { expression_code };

    ghost use Rattle.lucy_expr.specs.Shapes.{tree_of};

    ghost view = { λ e. record { tree = tree_of (arc_value e.node); room = vec_len (arc_value e.counts) } };

    ghost invariant = { λ e. (e.deep ≡ depth (tree_of (arc_value e.node)))
        × ((r : ℕ) → slice_index (arc_value e.counts).items r ≡ reach r (tree_of (arc_value e.node)))
        × (vec_len (arc_value e.counts) < 2 ^ 32) };
}

impl Drop for Expr {
    /// Lets go the nodes that no other expression has. It needs no deep stack.
    fn drop(self) {
        let Expr {
            node,
            deep: _,
            counts,
        } = self;
        let_go(*counts.allocator(), node);
    }
}

impl Expr {
    /// The opening state, with room for so many replicas.
    pub fn start(alloc: Global, replicas: u32) -> Result<Expr, AllocError>
        ensures tree { IfOk result (λ e. e.tree ≡ Start) }
        ensures room { IfOk result (λ e. e.room ≡ replicas) }
    {
        Expr::start_with(alloc, replicas as usize)
    }

    /// The opening state, with the room of this expression.
    pub fn opening(&self, alloc: Global) -> Result<Expr, AllocError>
        ensures tree { IfOk result (λ e. e.tree ≡ Start) }
        ensures room { IfOk result (λ e. e.room ≡ self.now.room) }
    {
        Expr::start_with(alloc, self.counts.len())
    }

    // The opening state, with this room.
    fn start_with(alloc: Global, room: usize) -> Result<Expr, AllocError>
        requires { room < 2 ^ 32 }
        ensures tree { IfOk result (λ e. e.tree ≡ Start) }
        ensures room { IfOk result (λ e. e.room ≡ room) }
    {
        let node = Arc::new(alloc, Node::Start)?;
        let counts = vec![in alloc; 0; room]?;
        let counts = Arc::new(alloc, counts)?;
        Ok(Expr {
            node,
            deep: 0,
            counts,
        })
    }

    /// A call, applied to what this expression gives.
    pub fn applied(&self, alloc: Global, id: Id, call: Call) -> Result<Expr, AllocError>
        requires replica { id.replica < self.now.room }
        requires count { id.count + 1 < 2 ^ 32 }
        requires depth { depth self.now.tree + 1 < 2 ^ 32 }
        ensures tree { IfOk result (λ e. e.tree ≡ Apply id call self.now.tree) }
        ensures room { IfOk result (λ e. e.room ≡ self.now.room) }
    {
        let inner = self.node.clone()?;
        let node = Arc::new(alloc, Node::Apply(id, call, inner))?;
        let mut counts = (*self.counts).clone()?;
        raise(&mut counts, id);
        let counts = Arc::new(alloc, counts)?;
        Ok(Expr {
            node,
            deep: self.deep + 1,
            counts,
        })
    }

    /// The merge of what this expression and another give, this one left.
    pub fn merged(&self, alloc: Global, other: &Expr) -> Result<Expr, AllocError>
        requires depth { depth self.now.tree + 1 < 2 ^ 32 }
        requires other_depth { depth other.now.tree + 1 < 2 ^ 32 }
        ensures tree { IfOk result (λ e. e.tree ≡ Merge self.now.tree other.now.tree) }
        ensures room { IfOk result (λ e. e.room ≡ max self.now.room other.now.room) }
    {
        let left = self.node.clone()?;
        let right = other.node.clone()?;
        let node = Arc::new(alloc, Node::Merge(left, right))?;
        let counts = greater(alloc, self.counts.as_slice(), other.counts.as_slice())?;
        let counts = Arc::new(alloc, counts)?;
        Ok(Expr {
            node,
            deep: self.deep.max(other.deep) + 1,
            counts,
        })
    }

    /// The same expression again. Its nodes are not copied.
    pub fn share(&self) -> Result<Expr, AllocError>
        ensures { IfOk result (λ e. e ≡ self.now) }
    {
        let node = self.node.clone()?;
        let counts = self.counts.clone()?;
        Ok(Expr {
            node,
            deep: self.deep,
            counts,
        })
    }

    /// 0 at the opening state, else one more than the depth of the deeper part.
    pub fn depth(&self) -> u32
        ensures { result ≡ depth self.now.tree }
    {
        self.deep
    }

    /// One more than the greatest count among the ids of a replica in it, 0 where there is none.
    pub fn reach(&self, replica: u32) -> u32
        ensures { result ≡ reach replica self.now.tree }
    {
        self.counts.get(replica as usize).copied().unwrap_or(0)
    }

    /// The reach of each replica for which there is room, by its number. It has no id of any other.
    pub fn reaches(&self) -> &[u32]
        ensures reaches { (replica : ℕ) → slice_index result.now replica ≡ reach replica self.now.tree }
        ensures few { length result.now < 2 ^ 32 }
    {
        self.counts.as_slice()
    }

    /// The nodes of its tree from the outside inward, each before its parts and the left part of a
    /// merge before the right one.
    pub fn flat(&self, alloc: Global) -> Result<Vec<Turn>, AllocError>
        ensures { IfOk result (λ v. v.items ≡ turns self.now.tree) }
    {
        flat(alloc, &self.node)
    }
}
