//! Laws of the definitions that contracts cite.

ghost use Rattle.lucy_cert.specs.Laws.{RefutesExactly, StepsGoOn, WrittenIsReadBack, LinesAreWritten, ReadIsWrittenBack};
ghost use Rattle.lucy_cert.specs.Lines.{GoesOn, Stops, CutsDoNotMatter};

use crate::state::Taker;
use lucy_io::{read_is_written, written_is_read};

/// A proof refutes a formula exactly where it has no fault.
pub fn refutes_exactly()
    ensures { RefutesExactly }
{}

/// A step that is justified by justified steps makes justified steps with them.
pub fn steps_go_on()
    ensures { StepsGoOn }
{}

/// A certificate that is written is read back, where its numbers are those that a text may have and the text is within
/// its limit.
pub fn written_is_read_back()
    ensures { WrittenIsReadBack }
{
    written_is_read();
}

/// Behind good lines some text goes on to its end.
pub fn texts_go_on<T: Taker>()
    ensures { GoesOn T.taken }
{}

/// Behind a bad line no text goes on, and that line is the one that is told.
pub fn bad_lines_stop<T: Taker>()
    ensures { Stops T.taken }
{}

/// However a text is cut, its pieces come to what the whole comes to.
pub fn cuts_do_not_matter<T: Taker>()
    ensures { CutsDoNotMatter T.taken }
{}

/// A line that is read is the one that is written of what it says.
pub fn lines_are_written()
    ensures { LinesAreWritten }
{
    read_is_written();
}

/// A text that is read is the text of the certificate that was read: each certificate has one text. Its numbers are
/// those that a text may have.
pub fn read_is_written_back()
    ensures { ReadIsWrittenBack }
{
    read_is_written();
}
