use lucy_epochs::{Epoch, Parts};
use lucy_expr::{Expr, Id};
use lucy_model::State;
use std::sync::Arc;

/// What became of a call.
#[derive(Drop)]
pub enum Reply {
    /// The replica accepted it by itself, in this record, as this id.
    Done {
        epoch: Arc<Epoch>,
        id: Id,
    },
    /// In this record, at this point, its result breaks the invariant.
    Broken {
        epoch: Arc<Epoch>,
        point: Expr,
    },
    /// It was wanted at this point, and opened this record, as this id.
    Moved {
        epoch: Arc<Epoch>,
        point: Expr,
        id: Id,
    },
    /// It was wanted at this point, and its result on the merge of these parts breaks the invariant.
    Refused {
        point: Expr,
        parts: Arc<Parts>,
    },
}

/// What a replica had of a record when that record was closed.
#[derive(Drop)]
pub struct Closing {
    /// The record.
    pub epoch: Arc<Epoch>,
    /// The replica's last state there.
    pub state: Arc<State>,
    /// How that state was made.
    pub expr: Expr,
}
