//! The text of lists.

ghost use Rattle.std.specs.Prelude.{◌≡◌, ◌++◌, OnOk};
ghost use Rattle.lucy_tree.specs.Words.{Words};
ghost use Rattle.lucy_print.specs.Layout.{laid, texts};

use std::alloc::AllocError;

/// What any number of may be written in a row.
pub trait Listed {
    ghost words: { Self → Words };

    /// Appends its text.
    fn put(&self, out: &mut Vec<u8>) -> Result<(), AllocError>
        ensures { OnOk result (out.new.items ≡ out.old.items ++ laid (words self.now)) };
}

/// Appends the texts of the items, one after the other.
pub fn put_each<T: Listed>(out: &mut Vec<u8>, items: &[T]) -> Result<(), AllocError>
    ensures { OnOk result (out.new.items ≡ out.old.items ++ texts T.words items.now) }
{
    for item in items {
        item.put(out)?;
    }
    Ok(())
}
