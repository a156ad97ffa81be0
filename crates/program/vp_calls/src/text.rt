//! Texts in room of the caller's.
ghost use Rattle.std.specs.Prelude.{◌≡◌};
ghost use Rattle.vp_calls.specs.Texts.{IsText};

/// Copies the front of a text to the front of some room, with a 0 behind it, both as far as there is room,
/// and tells how many bytes stand before the 0.
pub fn put(text: &[u8], room: &mut [u8]) -> usize
    ensures { IsText text.now room.old room.new result }
{
    let Some(most) = room.len().checked_sub(1) else {
        return 0;
    };
    let n = text.len().min(most);
    room[..n].copy_from_slice(&text[..n]);
    room[n] = 0;
    n
}
