ghost use Rattle.std.specs.Prelude.{◌≡◌, ◌++◌, OnOk, decimal};
ghost use Rattle.lucy_report.specs.StepTexts.{more_numbers, numbers_text, state_text, id_text};

use lucy_io::{write_count, write_number, write_text};
use std::alloc::AllocError;

/// Appends a text, and a count behind it.
pub fn write_counted(out: &mut Vec<u8>, text: &str, count: u64) -> Result<(), AllocError>
    ensures { OnOk result (out.new.items ≡ out.old.items ++ text.now ++ decimal count) }
{
    write_text(out, text)?;
    write_count(out, count)?;
    Ok(())
}

/// Appends a text, and a replica's number behind it.
pub fn write_numbered(out: &mut Vec<u8>, text: &str, replica: u32) -> Result<(), AllocError>
    ensures { OnOk result (out.new.items ≡ out.old.items ++ text.now ++ decimal replica) }
{
    write_counted(out, text, u64::from(replica))
}

/// Appends the id of a call: its replica, and how many calls that one had
/// accepted before.
#[tactic(auto, unfolding(crate::specs::StepTexts::id_text))]
pub fn write_id(out: &mut Vec<u8>, replica: u32, count: u32) -> Result<(), AllocError>
    ensures { OnOk result (out.new.items ≡ out.old.items ++ id_text replica count) }
{
    write_numbered(out, "", replica)?;
    write_numbered(out, ".", count)?;
    Ok(())
}

// Each number behind a comma.
fn write_more(out: &mut Vec<u8>, numbers: &[i64]) -> Result<(), AllocError>
    ensures { OnOk result (out.new.items ≡ out.old.items ++ more_numbers numbers.now) }
{
    for number in numbers {
        write_text(out, ",")?;
        write_number(out, *number)?;
    }
    Ok(())
}

fn write_numbers(out: &mut Vec<u8>, numbers: &[i64]) -> Result<(), AllocError>
    ensures { OnOk result (out.new.items ≡ out.old.items ++ numbers_text numbers.now) }
{
    match numbers {
        [] => Ok(()),
        [first, rest @ ..] => {
            write_number(out, *first)?;
            write_more(out, rest)?;
            Ok(())
        }
    }
}

/// Appends a state's numbers, in parentheses and with commas between them.
#[tactic(auto, unfolding(crate::specs::StepTexts::state_text))]
pub fn write_state(out: &mut Vec<u8>, state: &[i64]) -> Result<(), AllocError>
    ensures { OnOk result (out.new.items ≡ out.old.items ++ state_text state.now) }
{
    write_text(out, "(")?;
    write_numbers(out, state)?;
    write_text(out, ")")?;
    Ok(())
}
