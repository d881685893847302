//! Laws of the place that is told where a text has no tree.
#![tactic(auto)]

ghost use Rattle.lucy_syntax_laws.specs.Laws as spec;

use lucy_lexer::{equal_kinds, slices_are_spelled, spaced_tokens_are_read, spans_ascend};
use lucy_syntax::{read_is_spelled, read_is_within};

/// A text whose tokens are the words that a tree spells, places aside, is read as a tree.
pub fn same_words_are_read()
    ensures { spec.SameWordsAreRead }
{}

/// No tree within the nesting limit begins with the text's words up to the one where the reading stops, and with that one.
pub fn no_tree_goes_on()
    ensures { spec.NoTreeGoesOn }
{
    spans_ascend();
}

/// No tree within the nesting limit begins with the text's words up to the one that is nested too deep, and with that one.
pub fn no_tree_goes_deeper()
    ensures { spec.NoTreeGoesDeeper }
{
    spans_ascend();
}

/// Some text that is read begins with the words before the place that is told, their places aside.
pub fn some_text_goes_on()
    ensures { spec.SomeTextGoesOn }
{
    equal_kinds();
    spans_ascend();
    slices_are_spelled();
    spaced_tokens_are_read();
    same_words_are_read();
}

/// The place that is told is exact: some text that is read begins with the words before it, and none
/// with those words and the one at the place, nor are they all of a text that is read.
pub fn faults_are_exact()
    ensures { spec.FaultsAreExact }
{
    read_is_spelled();
    read_is_within();
    same_words_are_read();
    no_tree_goes_on();
    no_tree_goes_deeper();
    some_text_goes_on();
}
