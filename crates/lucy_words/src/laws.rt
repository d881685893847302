//! Laws of the definitions that contracts cite.

ghost use Rattle.lucy_words.specs.Commands.{BadWordsAreFirst, NumbersAreWithin};

/// Words that are refused are in no form, and the place that is told is the first at which no word list of a form goes on
/// with the word that stands there, or the number of words where one is missing.
pub fn bad_words_are_first()
    ensures { BadWordsAreFirst }
{}

/// The numbers of a command that words ask for are within their bounds.
pub fn numbers_are_within()
    ensures { NumbersAreWithin }
{}
