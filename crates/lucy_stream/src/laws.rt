//! Laws of texts that are judged as they are read.

ghost use Rattle.lucy_stream.specs.Laws.{JudgedAsRead};

use lucy_judge::judged_in_parts;

/// A text that is judged as it is read is answered as one that is read whole and then judged.
pub fn judged_as_read()
    ensures { JudgedAsRead }
{
    judged_in_parts();
}
