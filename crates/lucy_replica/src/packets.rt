use lucy_epochs::Epoch;
use lucy_expr::Expr;
use lucy_model::State;
use std::alloc::AllocError;
use std::marker::Model;
use std::sync::Arc;

/// What a replica sends: its record, its state and its expression. The expression is reachable from
/// the record's opening within the record's segment, and the state is its value.
#[derive(Drop)]
pub struct Packet {
    epoch: Arc<Epoch>,
    state: Arc<State>,
    expr: Expr,
}

impl Model for Packet {
    ghost use Rattle.std.specs.Arc.{arc_value};
    ghost use Rattle.lucy_epochs.specs.Contributions.{IsMade};
    ghost use Rattle.lucy_replica.specs.Replicas.{Message};
    ghost use Rattle.lucy_replica.specs.Codes.{message_code};

    ghost Value = { Message };

    ghost coded = { message_code };

    ghost view = { λ p. record { epoch = arc_value p.epoch; state = arc_value p.state; expression = p.expr } };

    ghost invariant = { λ p. IsMade (arc_value p.epoch) (arc_value p.state) p.expr.tree };
}

ghost use Rattle.std.specs.Prelude.{◌≡◌, IfOk};
ghost use Rattle.std.specs.Arc.{arc_value};
ghost use Rattle.lucy_epochs.specs.Contributions.{IsMade};

impl Packet {
    /// The packet with these fields.
    pub fn new(epoch: Arc<Epoch>, state: Arc<State>, expr: Expr) -> Packet
        requires { IsMade (arc_value epoch) (arc_value state) expr.tree }
        ensures { result ≡ record {
          epoch = arc_value epoch;
          state = arc_value state;
          expression = expr;
        } }
    {
        Packet { epoch, state, expr }
    }

    /// The record of the replica that sent it.
    pub fn epoch(&self) -> &Arc<Epoch>
        ensures { arc_value result.now ≡ self.now.epoch }
    {
        &self.epoch
    }

    /// That replica's state, which is the value of its expression.
    pub fn state(&self) -> &Arc<State>
        ensures state { arc_value result.now ≡ self.now.state }
        ensures made { IsMade self.now.epoch self.now.state self.now.expression.tree }
    {
        &self.state
    }

    /// That replica's expression.
    pub fn expr(&self) -> &Expr
        ensures { result.now ≡ self.now.expression }
    {
        &self.expr
    }

    /// The same packet again. What it holds is not copied.
    pub fn share(&self) -> Result<Packet, AllocError>
        ensures { IfOk result (λ p. p ≡ self.now) }
    {
        let epoch = self.epoch.clone()?;
        let state = self.state.clone()?;
        let expr = self.expr.share()?;
        Ok(Packet::new(epoch, state, expr))
    }
}
