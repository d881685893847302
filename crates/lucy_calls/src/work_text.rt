//! The text of work.

ghost use Rattle.std.specs.Prelude.{◌≡◌, ◌<◌, ◌++◌, ◌∷◌, [], IsTrue, length, map, OnOk, IfOk, codes, decimal};
ghost use Rattle.std.specs.Fmt.{signed_decimal};
ghost use Rattle.lucy_calls.specs.Texts.{behind_spaces, call_line, call_lines, lists_lines, work_text, are_named, AreNamed};

use crate::works::Work;
use lucy_io::{write_count, write_number, write_text};
use lucy_names::Names;
use lucy_plan::Call;
use sqlite_items::Items;
use std::alloc::{AllocError, Global};

// A space and a number.
fn write_argument(out: &mut Vec<u8>, argument: i64) -> Result<(), AllocError>
    ensures { OnOk result (out.new.items ≡ out.old.items ++ (32 ∷ signed_decimal argument)) }
{
    write_text(out, " ")?;
    write_number(out, argument)
}

fn write_arguments(out: &mut Vec<u8>, arguments: &[i64]) -> Result<(), AllocError>
    ensures { OnOk result (out.new.items ≡ out.old.items ++ behind_spaces (map signed_decimal arguments.now)) }
{
    for argument in arguments {
        write_argument(out, *argument)?;
    }
    Ok(())
}

// A replica and a name, with a space between them.
fn write_maker(out: &mut Vec<u8>, replica: u64, name: &str) -> Result<(), AllocError>
    ensures { OnOk result (out.new.items ≡ out.old.items ++ (decimal replica ++ 32 ∷ name.now)) }
{
    write_count(out, replica)?;
    write_text(out, " ")?;
    write_text(out, name)
}

fn write_call(out: &mut Vec<u8>, names: &Names, replica: u64, call: &Call) -> Result<(), AllocError>
    requires { call.now.txn < length names.now.txns }
    ensures { OnOk result (out.new.items ≡ out.old.items ++ (call_line names.now.txns replica call.now ++ 10 ∷ [])) }
{
    write_maker(out, replica, names.txn(call.txn))?;
    write_arguments(out, call.arguments.as_slice())?;
    write_text(out, "\n")
}

fn write_calls(
    out: &mut Vec<u8>,
    names: &Names,
    replica: u64,
    calls: &[Call],
) -> Result<(), AllocError>
    requires { IsTrue (are_named names.now.txns calls.now) }
    ensures { OnOk result (out.new.items ≡ out.old.items ++ call_lines names.now.txns replica calls.now) }
{
    for call in calls {
        write_call(out, names, replica, call)?;
    }
    Ok(())
}

fn write_lists(out: &mut Vec<u8>, names: &Names, lists: &[Items<Call>]) -> Result<(), AllocError>
    requires { AreNamed names.now.txns lists.now }
    ensures { OnOk result (out.new.items ≡ out.old.items ++ lists_lines names.now.txns 0 lists.now) }
{
    for (replica, calls) in lists.iter().enumerate() {
        write_calls(out, names, replica as u64, calls.as_slice())?;
    }
    Ok(())
}

fn write_replicas(out: &mut Vec<u8>, count: usize) -> Result<(), AllocError>
    ensures { OnOk result (out.new.items ≡ out.old.items ++ (codes "replicas " ++ decimal count ++ 10 ∷ [])) }
{
    write_text(out, "replicas ")?;
    write_count(out, count as u64)?;
    write_text(out, "\n")
}

/// The text of work: the lines `work 1` and `replicas N`, a line for each call, those of replica 0
/// first, then of replica 1, and so on, the line `end`. Each call's transaction has a name.
#[tactic(auto, unfolding(crate::specs::Texts::work_text))]
pub fn write_work(alloc: Global, names: &Names, work: &Work) -> Result<Vec<u8>, AllocError>
    requires { AreNamed names.now.txns work.now.lists }
    ensures { IfOk result (λ v. v.items ≡ work_text names.now.txns work.now.lists) }
{
    let mut out = Vec::new(alloc);
    write_text(&mut out, "work 1\n")?;
    write_replicas(&mut out, work.lists.len())?;
    write_lists(&mut out, names, work.lists.as_slice())?;
    write_text(&mut out, "end\n")?;
    Ok(out)
}
