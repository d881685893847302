ghost use Rattle.std.specs.Prelude.{◌≡◌, ◌*◌, ◌+◌, ◌^◌, ◌+ℤ◌, ◌*ℤ◌, IsTrue, length};
ghost use Rattle.lucy_model.specs.Numbers.{IsWithin};
ghost use Rattle.lucy_model.specs.Terms as terms;

use crate::numbers::Numbers;
use crate::states::State;
use crate::terms::{Share, Term};

/// `sum + by * number`
fn share_added(sum: i128, by: i64, number: i128) -> i128
    requires sum { IsWithin (2 ^ 32 * (1000000 * 2 ^ 69)) sum }
    requires by { IsWithin 1000000 by }
    requires number { IsWithin (2 ^ 69) number }
    ensures { result ≡ sum +ℤ by *ℤ number }
{
    sum + i128::from(by) * number
}

/// The sum of the shares of numbers.
fn shares_value<N: Numbers>(shares: &[Share], numbers: &N) -> i128
    requires shares { IsTrue (terms.are_shares 0 (length (N.numbers numbers.now)) shares.now) }
    requires small { N.are_small numbers.now }
    ensures value { result ≡ terms.shares_value shares.now (N.numbers numbers.now) }
    ensures size { IsWithin (2 ^ 32 * (1000000 * 2 ^ 69)) result }
{
    let mut sum = 0;
    for share in shares {
        let number = numbers.at(share.slot);
        sum = share_added(sum, share.by, number);
    }
    sum
}

/// `constant + leaves + arguments`
fn added(constant: i64, leaves: i128, arguments: i128) -> i128
    requires leaves { IsWithin (2 ^ 32 * (1000000 * 2 ^ 69)) leaves }
    requires arguments { IsWithin (2 ^ 32 * (1000000 * 2 ^ 69)) arguments }
    ensures { result ≡ constant +ℤ leaves +ℤ arguments }
{
    i128::from(constant) + leaves + arguments
}

/// The value of a term at numbers of leaves and of arguments.
pub fn value_over<N: Numbers>(term: &Term, numbers: &N, arguments: &[i64]) -> i128
    requires term { IsTrue (terms.is_term (length (N.numbers numbers.now)) (length arguments.now) term.now) }
    requires small { N.are_small numbers.now }
    ensures { result ≡ terms.term_value term.now (N.numbers numbers.now) arguments.now }
{
    let leaves = shares_value(term.leaves.as_slice(), numbers);
    let given = shares_value(term.arguments.as_slice(), &arguments);
    added(term.constant, leaves, given)
}

/// The value of a term in a state, at the arguments of a call: its constant, and each leaf and
/// argument that it names times its factor. The term is one over so many leaves and arguments.
pub fn eval(term: &Term, state: &State, arguments: &[i64]) -> i128
    requires { IsTrue (terms.is_term (length state.now) (length arguments.now) term.now) }
    ensures { result ≡ terms.term_value term.now state.now arguments.now }
{
    value_over(term, state, arguments)
}
