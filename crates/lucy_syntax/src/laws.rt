//! Laws of reading.

ghost use Rattle.lucy_syntax.specs.Laws as spec;

use lucy_lexer::equal_kinds;

/// A tree that is read spells the tokens of its text, each of them.
pub fn read_is_spelled()
    ensures { spec.ReadIsSpelled }
{
    equal_kinds();
}

/// In a tree that is read at most 64 `(`, `not`, `=>` and `pair` are open at once.
pub fn read_is_within()
    ensures { spec.ReadIsWithin }
{
    equal_kinds();
}

/// A text whose tokens a tree spells, with at most 64 open at once, is read as that tree.
pub fn spelled_is_read()
    ensures { spec.SpelledIsRead }
{}
