//! States that have an expression, and the pair that is shown.

ghost use Rattle.std.specs.Prelude.{◌≡◌, option_copied, is_some, IfOk};
ghost use Rattle.std.specs.Option.{option_map};
ghost use Rattle.lucy_session.specs.Sessions as spec;

use lucy_expr::Expr;
use lucy_model::State;

/// A state, and an expression that reaches it.
#[derive(Drop)]
pub struct Reached {
    /// The state.
    pub state: State,
    /// The expression, of at most 10,000 nodes, each counted as often as it stands in the tree.
    pub expr: Expr,
}

/// Two states, the lexicographically smaller one left.
#[derive(Drop)]
pub struct Pair {
    /// The smaller state.
    pub left: State,
    /// The greater state.
    pub right: State,
}

/// The expression of a state, if it has one.
pub(crate) fn expr_of<'a>(reached: &'a [Reached], state: &State) -> Option<&'a Expr>
    ensures { option_map (λ e. e.now) result ≡ spec.expr_of reached.now state.now }
{
    for entry in reached {
        if entry.state == *state {
            return Some(&entry.expr);
        }
    }
    None
}
