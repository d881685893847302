use crate::epochs::Epoch;
use lucy_expr::Expr;
use lucy_model::State;
use std::alloc::AllocError;
use std::marker::Model;
use std::sync::Arc;

/// What one replica gives to a change: its number, its record, its state and its expression. The
/// expression is reachable from the record's opening within the record's segment, and the state is
/// its value.
#[derive(Drop)]
pub struct Part {
    replica: u32,
    epoch: Arc<Epoch>,
    state: Arc<State>,
    expr: Expr,
}

impl Model for Part {
    ghost use Rattle.std.specs.Arc.{arc_value};
    ghost use Rattle.lucy_epochs.specs.Contributions.{Contribution, contribution_code, IsMade};

    ghost Value = { Contribution };

    ghost coded = { contribution_code };

    ghost view = { λ p. record { replica = p.replica; epoch = arc_value p.epoch; state = arc_value p.state; expression = p.expr } };

    ghost invariant = { λ p. IsMade (arc_value p.epoch) (arc_value p.state) p.expr.tree };
}

/// One part for each replica, in the order of their numbers, all of one record, each made as a `Part`
/// is. Contracts see the list of the parts.
#[derive(Drop)]
pub struct Parts {
    list: Vec<Part>,
}

impl Model for Parts {
    ghost use Rattle.std.specs.Prelude.{List};
    ghost use Rattle.std.specs.Coded.{coded_list};
    ghost use Rattle.lucy_epochs.specs.Contributions.{Contribution, contribution_code, AreOfOne, AreMade};

    ghost Value = { List Contribution };

    ghost coded = { coded_list contribution_code };

    ghost view = { λ p. p.list.items };

    ghost invariant = { λ p. AreOfOne p.list.items × AreMade p.list.items };
}

ghost use Rattle.std.specs.Prelude.{◌≡◌, ◌↔◌, IsTrue, IsSome, IfSome, IfOk};
ghost use Rattle.std.specs.Arc.{arc_value};
ghost use Rattle.lucy_epochs.specs.Contributions.{IsMade, AreFrom, AreOfOne, AreMade};

impl Part {
    /// The part with these fields.
    pub fn new(replica: u32, epoch: Arc<Epoch>, state: Arc<State>, expr: Expr) -> Part
        requires { IsMade (arc_value epoch) (arc_value state) expr.tree }
        ensures { result ≡ record {
          replica = replica;
          epoch = arc_value epoch;
          state = arc_value state;
          expression = expr;
        } }
    {
        Part {
            replica,
            epoch,
            state,
            expr,
        }
    }

    /// The replica's number.
    pub fn replica(&self) -> u32
        ensures { result ≡ self.now.replica }
    {
        self.replica
    }

    /// The replica's record.
    pub fn epoch(&self) -> &Arc<Epoch>
        ensures { arc_value result.now ≡ self.now.epoch }
    {
        &self.epoch
    }

    /// The replica's state, which is the value of its expression.
    pub fn state(&self) -> &Arc<State>
        ensures state { arc_value result.now ≡ self.now.state }
        ensures made { IsMade self.now.epoch self.now.state self.now.expression.tree }
    {
        &self.state
    }

    /// The replica's expression.
    pub fn expr(&self) -> &Expr
        ensures { result.now ≡ self.now.expression }
    {
        &self.expr
    }

    /// The same part again. What it holds is not copied.
    pub fn share(&self) -> Result<Part, AllocError>
        ensures { IfOk result (λ p. p ≡ self.now) }
    {
        let epoch = self.epoch.clone()?;
        let state = self.state.clone()?;
        let expr = self.expr.share()?;
        Ok(Part::new(self.replica, epoch, state, expr))
    }

    // Its record.
    pub(crate) fn into_epoch(self) -> Arc<Epoch>
        ensures { arc_value result ≡ self.epoch }
    {
        self.epoch
    }
}

impl Parts {
    /// These parts, if each part's replica is its place in the list, and all have one record.
    pub fn new(list: Vec<Part>) -> Option<Parts>
        ensures some { IsSome result ↔ AreOfOne list.items }
        ensures value { IfSome result (λ parts. parts ≡ list.items) }
    {
        are_made(list.as_slice());
        if are_of_one(list.as_slice()) {
            Some(Parts { list })
        } else {
            None
        }
    }

    // These parts, of which both are known.
    pub(crate) fn of(list: Vec<Part>) -> Parts
        requires of_one { AreOfOne list.items }
        requires made { AreMade list.items }
        ensures { result ≡ list.items }
    {
        Parts { list }
    }

    /// The parts, in the order of the replicas.
    pub fn list(&self) -> &[Part]
        ensures parts { result.now ≡ self.now }
        ensures of_one { AreOfOne self.now }
        ensures made { AreMade self.now }
    {
        self.list.as_slice()
    }
}

/// Each part is made. It does nothing.
fn are_made(parts: &[Part])
    ensures { AreMade parts.now }
{
    for part in parts {
        let _state = part.state();
    }
}

/// Whether each part's replica is its place, and all parts have this record.
fn are_of(epoch: &Epoch, parts: &[Part]) -> bool
    ensures { IsTrue result ↔ AreFrom 0 epoch.now parts.now }
{
    for (place, part) in parts.iter().enumerate() {
        if part.replica() as usize != place || !part.epoch().is_same(epoch) {
            return false;
        }
    }
    true
}

/// Whether each part's replica is its place, and all parts have one record.
fn are_of_one(parts: &[Part]) -> bool
    ensures { IsTrue result ↔ AreOfOne parts.now }
{
    match parts {
        [] => true,
        [first, ..] => are_of(first.epoch(), parts),
    }
}
