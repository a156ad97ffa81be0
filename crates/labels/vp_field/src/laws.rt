//! What the dots of a label come to.
ghost use Rattle.vp_field.specs.Laws.{StrokeAfterStroke, DotsMove, TurnedAndMirrored, InTheBox, StoredBehind};

/// The colour of the last field that covers a place, reversed once by each later reversing one, is what
/// painting one field after the other makes of it.
pub fn stroke_after_stroke()
    ensures { StrokeAfterStroke }
{}

/// The dots of a label as it is put out are the label's, at other places.
pub fn dots_move()
    ensures { DotsMove }
{}

/// A label turned by 180 degrees, or mirrored, shows what it showed before at the places from the other end.
pub fn turned_and_mirrored()
    ensures { TurnedAndMirrored }
{}

/// The ink of a field lies in its box, and a band shows a field without ink in its rows as it is.
pub fn in_the_box()
    ensures { InTheBox }
{}

/// A field that a format keeps stays the same when bytes are stored behind.
pub fn stored_behind()
    ensures { StoredBehind }
{}
