//! What a session answers.

use lucy_expr::Expr;
use lucy_model::State;
use std::alloc::{AllocError, AllocFailed};

/// What comes next in a session.
#[derive(Drop)]
pub enum Next {
    /// No two states of the invariant, neither of them excluded, have a merge that breaks it.
    Closed,
    /// Two states of the invariant whose merge breaks it, the lexicographically smaller one left. Neither is excluded,
    /// and at least one has no expression yet.
    Pair {
        /// The smaller state.
        left: State,
        /// The greater state.
        right: State,
        /// Whether the left state has no expression yet.
        asks_left: bool,
        /// Whether the right state has no expression yet.
        asks_right: bool,
    },
    /// Two expressions that are reached, and whose merge breaks the invariant.
    Broken {
        /// The expression of the left state.
        left: Expr,
        /// The expression of the right state.
        right: Expr,
    },
}

/// Why there is no session.
#[derive(Clone, Copy, Debug, PartialEq, Eq)]
pub enum SessionError {
    /// The plan's start breaks the invariant.
    StartBreaks,
    /// Memory ran out.
    OutOfMemory,
}

/// Why a label is refused, in the order in which the causes are tested.
#[derive(Clone, Copy, Debug, PartialEq, Eq)]
pub enum LabelError {
    /// The line is not the text of a label for the session's plan.
    BadLabel,
    /// The state that it names has an expression.
    AlreadyReachable,
    /// It excludes a state, and 256 states are excluded.
    TooMany,
    /// The call of this number breaks the invariant, and none before it does. Calls are numbered from 0 in the order in
    /// which the expression is evaluated.
    NotReached {
        /// The number of the call.
        at: u64,
    },
    /// The value of the expression is another state.
    OtherState,
    /// Memory ran out.
    OutOfMemory,
}

impl From<AllocError> for SessionError {
    ghost use Rattle.std.specs.Prelude.{◌≡◌};
    ghost use Rattle.lucy_session.specs.declared.answers.SessionError.TheVariants.{OutOfMemory};

    ghost from_gives = { λ _ e. e ≡ OutOfMemory };

    fn from(_: AllocError) -> SessionError {
        SessionError::OutOfMemory
    }
}

impl<T: Drop> From<AllocFailed<T>> for SessionError {
    ghost use Rattle.std.specs.Prelude.{◌≡◌};
    ghost use Rattle.lucy_session.specs.declared.answers.SessionError.TheVariants.{OutOfMemory};

    ghost from_gives = { λ _ e. e ≡ OutOfMemory };

    fn from(_: AllocFailed<T>) -> SessionError {
        SessionError::OutOfMemory
    }
}

impl From<AllocError> for LabelError {
    ghost use Rattle.std.specs.Prelude.{◌≡◌};
    ghost use Rattle.lucy_session.specs.declared.answers.LabelError.TheVariants.{OutOfMemory};

    ghost from_gives = { λ _ e. e ≡ OutOfMemory };

    fn from(_: AllocError) -> LabelError {
        LabelError::OutOfMemory
    }
}

impl<T: Drop> From<AllocFailed<T>> for LabelError {
    ghost use Rattle.std.specs.Prelude.{◌≡◌};
    ghost use Rattle.lucy_session.specs.declared.answers.LabelError.TheVariants.{OutOfMemory};

    ghost from_gives = { λ _ e. e ≡ OutOfMemory };

    fn from(_: AllocFailed<T>) -> LabelError {
        LabelError::OutOfMemory
    }
}
