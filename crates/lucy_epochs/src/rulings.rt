//! How a change is decided, and what one replica takes of the decision.
use crate::epochs::Epoch;
use crate::parts::Parts;
use lucy_model::State;
use std::alloc::AllocError;
use std::marker::Model;
use std::sync::Arc;

/// How a change is decided.
#[derive(Drop)]
pub enum Ruling {
    /// This record is opened.
    Opened(Arc<Epoch>),
    /// The wanted call's result on the merge of these parts breaks the invariant.
    Broken(Arc<Parts>),
    /// No call is wanted.
    Nothing,
}

/// What one adoption uses up.
#[derive(Drop)]
pub enum Shares {
    /// The record twice, and its opening.
    Opened {
        epoch: Arc<Epoch>,
        second: Arc<Epoch>,
        opening: Arc<State>,
    },
    /// The parts on which the call was refused.
    Broken {
        parts: Arc<Parts>,
    },
    /// No call was wanted.
    Nothing,
}

/// The shares of a ruling that one adoption uses up. Its type keeps that the second share of a record
/// is of the same record, and that the opening is the record's. Contracts see the ruling.
#[derive(Drop)]
pub struct Grant {
    shares: Shares,
}

impl Model for Grant {
    ghost use Rattle.lucy_epochs.specs.Rulings as decided;
    ghost use Rattle.lucy_epochs.specs.Sharing.{shared_ruling, AreShares};

    ghost Value = { decided.Ruling };

    ghost coded = { decided.ruling_code };

    ghost view = { λ g. shared_ruling g.shares };

    ghost invariant = { λ g. AreShares g.shares };
}

ghost use Rattle.std.specs.Prelude.{◌≡◌, IfOk};
ghost use Rattle.std.specs.Arc.{arc_value};
ghost use Rattle.lucy_epochs.specs.Rulings as decided;
ghost use Rattle.lucy_epochs.specs.Sharing.{ruling_of, shared_ruling, AreShares};

impl Ruling {
    /// A grant of this ruling, for one replica.
    pub fn grant(&self) -> Result<Grant, AllocError>
        ensures { IfOk result (λ g. g ≡ ruling_of self.now) }
    {
        match self {
            Ruling::Opened(epoch) => Grant::opened(epoch),
            Ruling::Broken(parts) => Grant::broken(parts),
            Ruling::Nothing => Ok(Grant {
                shares: Shares::Nothing,
            }),
        }
    }
}

impl Grant {
    /// The shares, to be used up.
    pub fn into_shares(self) -> Shares
        ensures ruling { shared_ruling result ≡ self }
        ensures kept { AreShares result }
    {
        self.shares
    }

    // The grant of an opened record.
    fn opened(epoch: &Arc<Epoch>) -> Result<Grant, AllocError>
        ensures { IfOk result (λ g. g ≡ decided.Opened (arc_value epoch.now)) }
    {
        let first = epoch.clone()?;
        let second = epoch.clone()?;
        let opening = epoch.opening().clone()?;
        Ok(Grant {
            shares: Shares::Opened {
                epoch: first,
                second,
                opening,
            },
        })
    }

    // The grant of a refusal.
    fn broken(parts: &Arc<Parts>) -> Result<Grant, AllocError>
        ensures { IfOk result (λ g. g ≡ decided.Broken (arc_value parts.now)) }
    {
        let parts = parts.clone()?;
        Ok(Grant {
            shares: Shares::Broken { parts },
        })
    }
}
