//! The size of characters.
ghost use Rattle.std.specs.Prelude.{◌≡◌};
ghost use Rattle.vp_label_settings.specs.Laws.{IsSize};
ghost use Rattle.vp_label_settings.specs.Ranges.{side_given, size_of, size_given};

/// The size of characters, in dots.
#[derive(Clone, Copy, PartialEq, Eq)]
pub struct CharacterSize {
    pub height: u16,
    pub width: u16,
}

/// A height or width, at most 1,500; 0 counts as missing.
fn counted(argument: Option<u32>) -> Option<u16>
    ensures { result ≡ side_given argument }
{
    match argument {
        Some(n) if n > 0 => Some(n.min(1500) as u16),
        _ => None,
    }
}

/// The size of a height, a width or both.
fn size_of(height: Option<u16>, width: Option<u16>, default: CharacterSize) -> CharacterSize
    ensures { result ≡ size_of height width default }
{
    match (height, width) {
        (None, None) => default,
        (None, Some(width)) => CharacterSize { width, ..default },
        (Some(height), None) => CharacterSize {
            height,
            width: (height / 2).max(1),
        },
        (Some(height), Some(width)) => CharacterSize { height, width },
    }
}

impl CharacterSize {
    /// The size that ^A and ^CF say: of a height alone the width is the half; a width alone goes with the
    /// default's height, and with neither the default stands.
    pub fn given(height: Option<u32>, width: Option<u32>, default: CharacterSize) -> CharacterSize
        ensures value { result ≡ size_given height width default }
        ensures fits { IsSize default → IsSize result }
    {
        size_of(counted(height), counted(width), default)
    }
}
