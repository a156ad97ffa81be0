//! Images joined into a PNG file.
ghost use Rattle.std.specs.Prelude.{◌≡◌, ℕ, List, Some, None, Err};
ghost use Rattle.vp_join.specs.Passes.{Joins, HaveCalled, HasFailed, is_read_fault, is_write_fault};
ghost use Rattle.vp_streams.specs.Count.{one_more_if};
ghost use Rattle.vp_picture.specs.Pictures.{HoldsFront, IsPictured, too_wide};

use crate::writer::PngWriter;
use vp_join::{JoinFault, join};
use vp_streams::{Sink, Source};

/// Writes the PNG file of the one image that `join` makes of what two readers of the same bytes tell, and
/// gives its height in dots; nothing, and 0, where there is no image. All is checked before anything is
/// written; an image of more than 1,664 dots' width is refused. It reads at most 1,000,000,000 times, and takes
/// no memory.
pub fn join_png<S: Source, T: Source, K: Sink>(
    first: &mut S,
    second: &mut T,
    picture: &mut PngWriter<K>,
) -> Result<u64, JoinFault>
    requires { picture.old.image ≡ None }
    ensures joins { Joins (S.remaining first.old) (S.remaining first.new)
        (T.remaining second.old) (T.remaining second.new)
        (λ text. HoldsFront (K.contents picture.old.output) (K.contents picture.new.output) text)
        too_wide result }
    ensures exact { (text : List ℕ) → S.remaining first.old ≡ Some text → T.remaining second.old ≡ Some text →
        IsPictured text (K.contents picture.old.output) (K.contents picture.new.output) result }
    ensures reads { HaveCalled 1000000000 (S.reads first.old) (S.reads first.new)
        (T.reads second.old) (T.reads second.new)
        (result ≡ Err JoinFault.TooManyTurns) }
    ensures failed_reads { HasFailed (S.failed_reads first.old) (S.failed_reads first.new)
        (T.failed_reads second.old) (T.failed_reads second.new) (is_read_fault result) }
    ensures failed_writes { K.failed_writes picture.new.output
        ≡ one_more_if (is_write_fault result) (K.failed_writes picture.old.output) }
{
    join(first, second, picture)
}
