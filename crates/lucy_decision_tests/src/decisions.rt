//! What is decided of a formula, once it is tested.
ghost use Rattle.std.specs.Prelude.{◌≡◌, true};
ghost use Rattle.lucy_clauses.specs.Formulas.{is_narrow};

use lucy_cert::Proof;
use lucy_checker::{Verdict, check};
use lucy_clauses::Formula;
use lucy_engine::Engine;
use lucy_solver::{Decision, decide, decide_by};
use std::alloc::Global;

fn is_model(formula: &Formula, numbers: &[i64]) -> bool
    requires { is_narrow formula.now ≡ true }
{
    numbers.len() == formula.ranges.len() && formula.holds_under(numbers)
}

fn is_refutation(alloc: Global, formula: &Formula, proof: &Proof) -> Option<bool> {
    match check(alloc, formula, proof, None).ok()? {
        Verdict::Refuted => Some(true),
        Verdict::Rejected { .. } => Some(false),
    }
}

// `model` for a model that holds, `refuted` for a proof that is checked.
fn tested(alloc: Global, formula: &Formula, decision: &Decision) -> Option<&'static str>
    requires { is_narrow formula.now ≡ true }
{
    match decision {
        Decision::Model(numbers) => {
            if is_model(formula, numbers.as_slice()) {
                Some("model")
            } else {
                None
            }
        }
        Decision::Refuted(proof) => {
            if is_refutation(alloc, formula, proof)? {
                Some("refuted")
            } else {
                None
            }
        }
    }
}

/// `model` where there is one, which holds; `refuted` where there is a proof, which is checked.
pub fn decided(alloc: Global, formula: &Formula) -> Option<&'static str> {
    if !formula.narrow() || formula.ranges.len() > 100 {
        return None;
    }
    let decision = decide(alloc, formula).ok()?;
    tested(alloc, formula, &decision)
}

/// The same with an engine that is stuck one time in three, at random by a seed.
pub fn decided_spoiled(alloc: Global, formula: &Formula, seed: u64) -> Option<&'static str> {
    if !formula.narrow() || formula.ranges.len() > 100 {
        return None;
    }
    let mut engine = Engine::new(alloc, formula).ok()?;
    engine.spoil(seed);
    let decision = decide_by(alloc, formula, &mut engine).ok()?;
    tested(alloc, formula, &decision)
}

/// The proof, which is checked, that a formula has no model.
pub fn proof_of(alloc: Global, formula: &Formula) -> Option<Proof> {
    if !formula.narrow() || formula.ranges.len() > 100 {
        return None;
    }
    match decide(alloc, formula).ok()? {
        Decision::Refuted(proof) => {
            if is_refutation(alloc, formula, &proof)? {
                Some(proof)
            } else {
                None
            }
        }
        Decision::Model(_) => None,
    }
}
