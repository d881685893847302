//! Laws of the definitions that contracts cite.

ghost use Rattle.lucy_names.specs.Laws.{NamesAreFound};

/// Where names differ, each of them is found at its own place.
pub fn names_are_found()
    ensures { NamesAreFound }
{}
