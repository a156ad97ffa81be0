//! What the dots of a page come to.
ghost use Rattle.vp_page.specs.Laws.{DotsFall, MarksAndWipes, RowsMakeAnImage};

/// A mark blackens the places on which its black dots fall, and no others.
pub fn dots_fall()
    ensures { DotsFall }
{}

/// A place is black exactly where a black dot of some mark falls on it, and no later wipe holds it.
pub fn marks_and_wipes()
    ensures { MarksAndWipes }
{}

/// Rows that are laid one below the other are one image.
pub fn rows_make_an_image()
    ensures { RowsMakeAnImage }
{}
