//! How characters are drawn.
ghost use Rattle.std.specs.Prelude.{◌≡◌, ◌+◌, ◌*◌, ◌≤◌, ◌<◌, if◌then◌else◌};
ghost use Rattle.vp_receipt_settings.specs.Texts.{rows_or, is_magnification, width_or, height_or, style_of};
ghost use Rattle.vp_receipt_settings.specs.Settings.{IsFitText};
ghost use Rattle.vp_glyph.specs.Cells.{cell_width, cell_height};
ghost use Rattle.vp_receipt_settings.specs.declared.text.TheConstants.{LINE_ROWS, WIDEST};

use vp_dots::Small;
use vp_esc::item::{Magnification, PrintMode, Underline};
use vp_glyph::{Cell, Font, Sheets, Style};

/// The most rows of a line: eight times those of a character.
pub const LINE_ROWS: usize = 192;

/// The most dots that a character takes in a line.
pub const WIDEST: u16 = 2136;

/// How characters are drawn.
#[derive(Clone, Copy)]
pub struct Text {
    pub font: Font,
    pub emphasized: bool,
    pub double_strike: bool,
    /// Rows of the underline.
    pub underline: u8,
    pub inverse: bool,
    pub wide: u8,
    pub high: u8,
    pub right_spacing: u8,
}

/// How many rows an underline has, `old` where none is named.
pub(crate) fn rows_or(underline: Option<Underline>, old: u8) -> u8
    ensures { result ≡ rows_or underline old }
{
    match underline {
        None => old,
        Some(Underline::Off) => 0,
        Some(Underline::OneRow) => 1,
        Some(Underline::TwoRows) => 2,
    }
}

fn is_accepted(m: Magnification) -> bool
    ensures { result ≡ is_magnification m }
{
    0 < m.width && m.width <= 8 && 0 < m.height && m.height <= 8
}

impl Text {
    pub const START: Text = Text {
        font: Font::A,
        emphasized: false,
        double_strike: false,
        underline: 0,
        inverse: false,
        wide: 1,
        high: 1,
        right_spacing: 0,
    };

    /// The style of a cell.
    pub fn style(self) -> Style
        ensures { result ≡ style_of self }
    {
        Style {
            wm: self.wide,
            hm: self.high,
            spacing: self.right_spacing,
            bold: self.emphasized || self.double_strike,
            underline: self.underline,
            inverse: self.inverse,
        }
    }

    /// The cell of a character.
    pub fn cell<A: Small>(self, sheets: &Sheets<A>, code: u8) -> Cell<'_, A>
        ensures sheets { result.sheets.now ≡ sheets.now }
        ensures character { result.character ≡ code }
        ensures font { result.font ≡ self.font }
        ensures style { result.style ≡ style_of self }
    {
        sheets.cell(code, self.font, self.style())
    }

    /// How wide a character is.
    pub fn advance(self) -> u16
        requires { IsFitText self }
        ensures value { result ≡ cell_width self.font (style_of self) }
        ensures small { result ≤ WIDEST }
    {
        let cell = match self.font {
            Font::A => 12,
            Font::B => 9,
        };
        (cell + self.right_spacing as u16) * self.wide as u16
    }

    /// How high it is.
    pub fn height(self) -> u16
        requires { IsFitText self }
        ensures value { result ≡ cell_height self.font (style_of self) }
        ensures small { result ≤ LINE_ROWS }
    {
        let cell = match self.font {
            Font::A => 24,
            Font::B => 17,
        };
        cell * self.high as u16
    }

    /// What is in force after ESC !.
    pub(crate) fn after_mode(self, mode: PrintMode) -> Text
        ensures { result ≡ record self {
          font = mode.font;
          emphasized = mode.emphasized;
          underline = (if mode.underlined then 1 else 0);
          wide = (if mode.double_width then 2 else 1);
          high = (if mode.double_height then 2 else 1);
        } }
    {
        Text {
            font: mode.font,
            emphasized: mode.emphasized,
            underline: if mode.underlined { 1 } else { 0 },
            wide: if mode.double_width { 2 } else { 1 },
            high: if mode.double_height { 2 } else { 1 },
            ..self
        }
    }

    /// What is in force after GS !.
    pub(crate) fn after_magnification(self, named: Option<Magnification>) -> Text
        requires { IsFitText self }
        ensures text { result ≡
            record self { wide = width_or named self.wide; high = height_or named self.high } }
        ensures fit { IsFitText result }
    {
        match named {
            Some(m) if is_accepted(m) => Text {
                wide: m.width,
                high: m.height,
                ..self
            },
            _ => self,
        }
    }
}
