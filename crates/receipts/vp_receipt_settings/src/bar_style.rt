//! How bar codes are drawn: their height, their module, and the position and font of their text (HRI).

use vp_bar_code::HriPosition;
use vp_glyph::Font;

/// How bar codes are drawn.
#[derive(Clone, Copy)]
pub struct BarStyle {
    pub height: u8,
    /// Dots of a module.
    pub module_dots: u8,
    pub hri_position: HriPosition,
    pub hri_font: Font,
}

impl BarStyle {
    pub const START: BarStyle = BarStyle {
        height: 162,
        module_dots: 3,
        hri_position: HriPosition::None,
        hri_font: Font::A,
    };
}
