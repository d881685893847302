//! Laws of the definitions that contracts cite.
ghost use Rattle.lucy_io.specs.Decimals.{WrittenIsRead, ReadIsWritten};
ghost use Rattle.lucy_io.specs.Inputs.{CountsFailures};

/// The count of faults in a journal rises by one at each fetch that failed, and at no other.
pub fn fetch_counts_failures()
    ensures { CountsFailures }
{}

/// The decimal text of each number within 128 bits is read as that number.
pub fn written_is_read()
    ensures { WrittenIsRead }
{}

/// A text that is read as a number is that number's decimal text, so each number has one text.
pub fn read_is_written()
    ensures { ReadIsWritten }
{}
