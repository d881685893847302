//! Calls that are drawn.

ghost use Rattle.std.specs.Prelude.{◌≡◌, ◌<◌, [], ◌&&◌, IsTrue, IfOk, length, option_copied, pos, ◌+ℤ◌, int_le};
ghost use Rattle.lucy_plan.specs.Calls.{Fits, are_arguments};
ghost use Rattle.lucy_walks.specs.Drawing as draw;

use lucy_net::Chaos;
use lucy_plan::{Call, Limits, Plan, Txn};
use sqlite_items::Items;
use std::alloc::{AllocError, Global};

// The most numbers that are drawn from.
const MOST_CHOICES: u64 = 4_294_967_295;

// How many numbers are drawn from.
fn choices(limits: Limits) -> u32
    ensures value { result ≡ draw.choices limits }
    ensures some { 0 < result }
{
    let wide = (limits.hi - limits.lo).unsigned_abs() + 1;
    wide.min(MOST_CHOICES) as u32
}

// The number of a range that is so many above the least one.
fn offset(limits: Limits, number: u32) -> i64
    requires { number < draw.choices limits }
    ensures value { result ≡ limits.lo +ℤ pos number }
    ensures within { IsTrue (int_le limits.lo result && int_le result limits.hi) }
{
    limits.lo + i64::from(number)
}

#[tactic(auto, unfolding(crate::specs::Drawing::drawn_argument))]
fn draw_argument(chaos: &mut Chaos, limits: Limits) -> i64
    ensures value { (result, chaos.new) ≡ draw.drawn_argument limits chaos.old }
    ensures within { IsTrue (int_le limits.lo result && int_le result limits.hi) }
{
    let number = chaos.draw(choices(limits));
    offset(limits, number)
}

// An argument for each parameter.
fn draw_arguments(
    alloc: Global,
    chaos: &mut Chaos,
    mut params: &[Limits],
) -> Result<Items<i64>, AllocError>
    ensures value { IfOk result (λ arguments. (arguments, chaos.new) ≡ draw.drawn_arguments [] params.entry.now chaos.old) }
    ensures fit { IfOk result (λ arguments. IsTrue (are_arguments params.entry.now arguments)) }
{
    let mut arguments = Items::new(alloc);
    while let [limits, others @ ..] = params {
        let argument = draw_argument(chaos, *limits);
        arguments.push(argument)?;
        params = others;
    }
    Ok(arguments)
}

fn params_of(txn: Option<&Txn>) -> &[Limits]
    ensures { result.now ≡ draw.params_of (option_copied txn.entry) }
{
    match txn {
        None => &[],
        Some(txn) => txn.params.as_slice(),
    }
}

/// A call of one of the plan's transactions, of which there is one. It fits the plan.
#[tactic(auto, unfolding(crate::specs::Drawing::drawn_call))]
pub fn draw_call(alloc: Global, plan: &Plan, chaos: &mut Chaos) -> Result<Call, AllocError>
    requires { 0 < length plan.now.txns }
    ensures value { IfOk result (λ call. (call, chaos.new) ≡ draw.drawn_call plan.now chaos.old) }
    ensures fits { IfOk result (Fits plan.now) }
{
    let txns = plan.parts().txns.as_slice();
    let txn = chaos.draw(txns.len() as u32);
    let params = params_of(txns.get(txn as usize));
    let arguments = draw_arguments(alloc, chaos, params)?;
    Ok(Call { txn, arguments })
}
