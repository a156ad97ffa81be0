//! Letters, found by their codes.

ghost use Rattle.std.specs.Prelude.{MatchOption};
ghost use Rattle.vp_font.specs.Glyphs.{Rising, Lacks, HasAt};

use crate::letter::Entry;

/// Which letter has a code: of those that may have it half are left at each step.
pub fn place_of(letters: &[Entry], code: u32) -> Option<usize>
    requires { Rising letters.now }
    ensures { MatchOption result (Lacks letters.now code) (λ i. HasAt letters.now code i) }
{
    let mut from = 0;
    let mut to = letters.len();
    while from < to {
        let middle = from + (to - from) / 2;
        let entry = letters[middle];
        if entry.letter.code == code {
            return Some(middle);
        }
        if entry.letter.code < code {
            from = middle + 1;
            continue;
        }
        to = middle;
    }
    None
}
