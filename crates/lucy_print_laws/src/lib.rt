//! Laws of the printed text of a tree.
#![tactic(auto)]

ghost use Rattle.lucy_print_laws.specs.Laws as spec;

use lucy_lexer::{slices_are_spelled, spaced_tokens_are_read, spans_ascend};
use lucy_syntax::{read_is_spelled, read_is_within, spelled_is_read};

/// The tokens of the printed text of a tree that was read are the words that the tree spells, each of
/// them, but for their places.
pub fn printed_is_spelled()
    ensures { spec.PrintedIsSpelled }
{
    read_is_spelled();
    spans_ascend();
    slices_are_spelled();
    spaced_tokens_are_read();
}

/// The printed text of a tree that was read is read as that tree, but for its places.
pub fn printed_is_read()
    ensures { spec.PrintedIsRead }
{
    read_is_spelled();
    read_is_within();
    spelled_is_read();
    spans_ascend();
    printed_is_spelled();
}

/// The places of a tree are not printed: trees that differ in them alone have one text.
pub fn places_are_not_printed()
    ensures { spec.PlacesAreNotPrinted }
{}

/// The tree that is read from the printed text of a tree that was read is printed as that same text.
pub fn printed_again_is_same()
    ensures { spec.PrintedAgainIsSame }
{
    printed_is_read();
    places_are_not_printed();
}
