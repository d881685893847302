ghost use Rattle.std.specs.Prelude.{◌≡◌, take};

use sqlite_items::Items;

/// Lets go of the items behind the first so many.
pub fn shorten<T: Drop>(items: &mut Items<T>, length: usize)
    ensures { items.new ≡ take length items.old }
{
    while items.len() > length {
        items.pop();
    }
}
