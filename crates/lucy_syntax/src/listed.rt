//! Any number of parts in a row.

ghost use Rattle.std.specs.Prelude.{◌≡◌, Ok, Option};
ghost use Rattle.lucy_syntax.specs.Input.{Parser, Reads};
ghost use Rattle.lucy_syntax.specs.Lists as spec;

use crate::cursor::Cursor;
use crate::error::SyntaxError;
use sqlite_items::Items;
use std::alloc::Global;

/// What may stand any number of times in a row, each after a mark that says that it comes.
pub trait Listed: Drop {
    /// What says that one comes.
    type Mark: Copy;

    /// What is read after the mark.
    type Item: Drop;

    ghost begun: { Parser (Option Self.Mark) };

    ghost read: { Parser Self.Item };

    ghost joined: { Self.Mark → Self.Item → Self };

    /// The mark, if one comes next.
    fn begun(cursor: &mut Cursor<'_>) -> Option<Self::Mark>
        ensures { begun cursor.old ≡ Ok (result, cursor.new) };

    /// Reads what comes after the mark.
    fn read(alloc: Global, cursor: &mut Cursor<'_>) -> Result<Self::Item, SyntaxError>
        ensures { Reads (read cursor.old) result cursor.new };

    /// The part of a mark and what was read after it.
    fn joined(mark: Self::Mark, item: Self::Item) -> Self
        ensures { result ≡ joined mark item };
}

/// Reads parts until no mark comes next.
pub fn many<T: Listed>(alloc: Global, cursor: &mut Cursor<'_>) -> Result<Items<T>, SyntaxError>
    ensures { Reads (spec.many T.begun T.joined T.read cursor.old) result cursor.new }
{
    let mut found = Items::new(alloc);
    for _turn in 0..cursor.left() {
        match T::begun(cursor) {
            None => return Ok(found),
            Some(mark) => {
                let item = T::read(alloc, cursor)?;
                found.push(T::joined(mark, item))?;
            }
        }
    }
    Ok(found)
}
