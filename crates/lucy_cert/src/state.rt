//! A text of lines, as its bytes pass.

ghost use Rattle.std.specs.Prelude.{◌≡◌, ◌+◌, ◌++◌, ◌<◌, ◌≤◌, ◌^◌, length, IfOk};
ghost use Rattle.lucy_cert.specs.Reading as spec;

use crate::bytes::Bytes;
use crate::cutting::cut;
use crate::entries::Item;
use crate::entry_lines::read_entry;
use crate::machine::{Machine, Moved, entry_after};
use std::alloc::{AllocError, Global};

/// What is made of the items of a certificate, one after another.
pub trait Taker: Drop {
    ghost use Rattle.lucy_cert.specs.declared.entries.Item.{Item};

    ghost taken: { Self → Item → Self };

    /// What one more item makes of it.
    fn take(self, alloc: Global, item: Item) -> Result<Self, AllocError>
        ensures { IfOk result (λ t. t ≡ taken self item) };
}

/// What was made of the bytes of a text so far.
#[derive(Drop)]
pub struct State<T> {
    /// The bytes of the line that is not ended yet.
    pub carry: Bytes,
    /// The number of lines, up to the first bad one.
    pub lines: u64,
    /// The machine behind these lines. `None` where the line behind them is bad.
    pub machine: Option<Machine>,
    /// What was made of the items that these lines complete.
    pub taken: T,
}

// What a line makes of a machine.
fn line_after(alloc: Global, machine: Machine, line: &[u8]) -> Result<Option<Moved>, AllocError>
    ensures { IfOk result (λ m. m ≡ spec.line_after machine line.now) }
{
    match read_entry(alloc, line)? {
        Some(entry) => entry_after(alloc, machine, entry),
        None => Ok(None),
    }
}

fn item_taken<T: Taker>(alloc: Global, taken: T, item: Option<Item>) -> Result<T, AllocError>
    ensures { IfOk result (λ t. t ≡ spec.item_taken T.taken taken item) }
{
    match item {
        Some(item) => taken.take(alloc, item),
        None => Ok(taken),
    }
}

// The state behind a whole line, with so many good lines before it.
fn moved_to<T: Taker>(
    alloc: Global,
    lines: u64,
    taken: T,
    moved: Option<Moved>,
) -> Result<State<T>, AllocError>
    requires { lines + 1 < 2 ^ 64 }
    ensures value { IfOk result (λ s. s ≡ spec.moved_to T.taken lines taken moved) }
    ensures lines { IfOk result (λ s. s.lines ≤ lines + 1) }
{
    match moved {
        None => Ok(State {
            carry: Bytes::new(alloc),
            lines,
            machine: None,
            taken,
        }),
        Some(Moved { machine, item }) => {
            let taken = item_taken(alloc, taken, item)?;
            Ok(State {
                carry: Bytes::new(alloc),
                lines: lines + 1,
                machine: Some(machine),
                taken,
            })
        }
    }
}

fn carried(carry: Bytes, text: &[u8]) -> Result<Bytes, AllocError>
    ensures { IfOk result (λ c. c ≡ carry ++ text.now) }
{
    let mut more = carry;
    more.extend(text)?;
    Ok(more)
}

// What a line makes of a machine, where its front was carried. A line that stands whole in the text is not copied.
fn carried_line_after(
    alloc: Global,
    carry: Bytes,
    machine: Machine,
    text: &[u8],
) -> Result<Option<Moved>, AllocError>
    ensures { IfOk result (λ m. m ≡ spec.line_after machine (carry ++ text.now)) }
{
    if let [] = carry.as_slice() {
        return line_after(alloc, machine, text);
    }
    let line = carried(carry, text)?;
    line_after(alloc, machine, line.as_slice())
}

// A line that ends with this text.
fn line_ended<T: Taker>(alloc: Global, state: State<T>, text: &[u8]) -> Result<State<T>, AllocError>
    requires { state.lines + 1 < 2 ^ 64 }
    ensures value { IfOk result (λ s. s ≡ spec.line_ended T.taken state text.now) }
    ensures lines { IfOk result (λ s. s.lines ≤ state.lines + 1) }
{
    let State {
        carry,
        lines,
        machine,
        taken,
    } = state;
    let Some(machine) = machine else {
        return Ok(State {
            carry,
            lines,
            machine: None,
            taken,
        });
    };
    let moved = carried_line_after(alloc, carry, machine, text)?;
    moved_to(alloc, lines, taken, moved)
}

// More of the line that is not ended yet.
fn line_kept<T: Taker>(state: State<T>, text: &[u8]) -> Result<State<T>, AllocError>
    ensures value { IfOk result (λ s. s ≡ spec.line_kept state text.now) }
    ensures lines { IfOk result (λ s. s.lines ≡ state.lines) }
{
    let State {
        carry,
        lines,
        machine,
        taken,
    } = state;
    let Some(machine) = machine else {
        return Ok(State {
            carry,
            lines,
            machine: None,
            taken,
        });
    };
    let carry = carried(carry, text)?;
    Ok(State {
        carry,
        lines,
        machine: Some(machine),
        taken,
    })
}

/// What a piece of a text makes of a state.
#[tactic(auto, unfolding(crate::specs::Reading::after))]
pub fn text_after<T: Taker>(
    alloc: Global,
    state: State<T>,
    text: &[u8],
) -> Result<State<T>, AllocError>
    requires { state.lines + length text.now < 2 ^ 64 }
    ensures value { IfOk result (λ s. s ≡ spec.after T.taken state text.now) }
    ensures lines { IfOk result (λ s. s.lines ≤ state.lines + length text.now) }
{
    let mut state = state;
    let mut rest = text;
    while let Some((line, after)) = cut(rest, b'\n') {
        state = line_ended(alloc, state, line)?;
        rest = after;
    }
    line_kept(state, rest)
}
