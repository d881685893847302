ghost use Rattle.std.specs.Prelude.{◌≡◌, ◌++◌, [], ◌∷◌, OnOk, OnErr};
ghost use Rattle.lucy_io.specs.Inputs.{entry};
ghost use Rattle.lucy_io.specs.Noted.{noted_all};

use crate::Ending;
use std::alloc::{AllocError, Global};

// An entry of a journal.
#[derive(Drop)]
pub struct Noted {
    pub name: String,
    pub ending: Ending,
}

// Appends an entry, and leaves the journal as it was where memory is wanting.
pub fn note(
    alloc: Global,
    journal: &mut Vec<Noted>,
    name: &str,
    ending: Ending,
) -> Result<(), AllocError>
    ensures ok { OnOk result (noted_all journal.new.items ≡ noted_all journal.old.items ++ entry name.now ending ∷ []) }
    ensures err { OnErr result (noted_all journal.new.items ≡ noted_all journal.old.items) }
{
    let name = String::from_str(alloc, name)?;
    journal.push(Noted { name, ending })?;
    Ok(())
}
