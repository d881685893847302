ghost use Rattle.lucy_epochs.specs.Laws.{FirstRecordIsInSegment, NextRecordIsInSegment, ContentsGrow, AreFromByPlaces, AreMadeByPlaces, FullSeatsGiveParts};

use lucy_plan::first_segment_is_first;

/// Where the start of a plan is in a segment, it is in the segment of the first record.
pub fn first_record_is_in_segment()
    ensures { FirstRecordIsInSegment }
{
    first_segment_is_first();
}

/// Where the opening of the next record is in a segment, it is in the segment of that record.
pub fn next_record_is_in_segment()
    ensures { NextRecordIsInSegment }
{
    first_segment_is_first();
}

/// What the opening of a record contains, the openings of all later records contain, in the same
/// order and before what is added.
pub fn contents_grow()
    ensures { ContentsGrow }
{}

/// Parts are one for each replica, counted from a number on, and of one record, exactly where each
/// part at its place is.
pub fn are_from_by_places()
    ensures { AreFromByPlaces }
{}

/// Parts were made exactly where each part at its place was.
pub fn are_made_by_places()
    ensures { AreMadeByPlaces }
{}

/// Where all seats are taken, the parts are those of the seats.
pub fn full_seats_give_parts()
    ensures { FullSeatsGiveParts }
{}
