//! What outlives a format.
ghost use Rattle.std.specs.Prelude.{◌≡◌, []};
ghost use Rattle.vp_label_settings.specs.Ranges.{ranged as in_range};
ghost use Rattle.vp_label_settings.specs.Settings.{settings_of, settings_by};

use crate::range::ranged;
use crate::size::CharacterSize;
use vp_label_size::{LONGEST, WIDEST};
use vp_zpl::item::{Command, Orientation};

/// The place from which fields are counted (^LH), each way 0 to 32,000 dots.
#[derive(Clone, Copy, PartialEq, Eq)]
pub struct Home {
    pub x: u16,
    pub y: u16,
}

/// How bars are drawn that don't say it (^BY).
#[derive(Clone, Copy, PartialEq, Eq)]
pub struct BarDefaults {
    /// Dots of a narrow bar, 1 to 10.
    pub module_dots: u8,
    /// Of a wide bar to a narrow one, in tenths, 20 to 30.
    pub ratio_tenths: u8,
    /// In dots, 1 to 8,000.
    pub height: u16,
}

/// What outlives a format.
#[derive(Clone, Copy, PartialEq, Eq)]
pub struct Settings {
    pub home: Home,
    /// How wide a label is (^PW), 1 to `WIDEST`.
    pub print_width: u16,
    /// How long it is (^LL), 1 to `LONGEST`.
    pub label_length: u16,
    /// Whether it is turned by 180 degrees (^PO).
    pub is_inverted: bool,
    /// Whether left and right change places (^PM).
    pub is_mirrored: bool,
    /// Whether every field reverses (^LR).
    pub label_reverse: bool,
    /// How fields are turned that don't say it (^FW).
    pub field_orientation: Orientation,
    /// The size of characters of fields that don't say it (^CF).
    pub default_font: CharacterSize,
    pub bar_defaults: BarDefaults,
    /// How many copies are printed (^PQ): 1 where a format begins, at most 99,999,999.
    pub quantity: u32,
}

/// What ^CF sets where nothing is given.
const FIRST_FONT: CharacterSize = CharacterSize {
    height: 9,
    width: 5,
};

impl Home {
    /// The home of ^LH.
    fn given(x: Option<u32>, y: Option<u32>) -> Home
        ensures { result ≡ record { x = in_range 0 32000 0 x; y = in_range 0 32000 0 y } }
    {
        Home {
            x: ranged(0, 32_000, 0, x),
            y: ranged(0, 32_000, 0, y),
        }
    }
}

impl BarDefaults {
    /// The defaults of ^BY.
    fn given(narrow: Option<u32>, ratio_tenths: Option<u32>, height: Option<u32>) -> BarDefaults
        ensures { result ≡ record {
          module_dots = in_range 1 10 2 narrow;
          ratio_tenths = in_range 20 30 30 ratio_tenths;
          height = in_range 1 8000 10 height;
        } }
    {
        BarDefaults {
            module_dots: ranged(1, 10, 2, narrow) as u8,
            ratio_tenths: ranged(20, 30, 30, ratio_tenths) as u8,
            height: ranged(1, 8000, 10, height),
        }
    }
}

/// ^PQ.
fn quantity(copies: Option<u32>) -> u32
    ensures { result ≡ in_range 1 99999999 1 copies }
{
    match copies {
        None => 1,
        Some(copies) => copies.min(99_999_999).max(1),
    }
}

impl Settings {
    /// What is in force before anything was sent.
    pub fn new() -> Settings
        ensures { result ≡ settings_of [] }
    {
        Settings {
            home: Home { x: 0, y: 0 },
            print_width: 832,
            label_length: 1218,
            is_inverted: false,
            is_mirrored: false,
            label_reverse: false,
            field_orientation: Orientation::Normal,
            default_font: FIRST_FONT,
            bar_defaults: BarDefaults {
                module_dots: 2,
                ratio_tenths: 30,
                height: 10,
            },
            quantity: 1,
        }
    }

    /// What a command of an open format leaves in force. What it leaves out
    /// takes its default, not what was in force.
    pub fn after(mut self, command: Command) -> Settings
        ensures { result ≡ settings_by command self }
    {
        match command {
            Command::LabelHome { x, y } => self.home = Home::given(x, y),
            Command::PrintWidth { dots } => self.print_width = ranged(1, WIDEST, 832, dots),
            Command::LabelLength { dots } => self.label_length = ranged(1, LONGEST, 1218, dots),
            Command::PrintOrientation { inverted } => self.is_inverted = inverted.unwrap_or(false),
            Command::MirrorImage { mirrored } => self.is_mirrored = mirrored.unwrap_or(false),
            Command::LabelReverse { reversed } => self.label_reverse = reversed.unwrap_or(false),
            Command::FieldOrientation { orientation } => {
                self.field_orientation = orientation.unwrap_or(Orientation::Normal);
            }
            Command::DefaultFont { height, width } => {
                self.default_font = CharacterSize::given(height, width, FIRST_FONT);
            }
            Command::BarDefaults {
                module,
                ratio_tenths,
                height,
            } => self.bar_defaults = BarDefaults::given(module, ratio_tenths, height),
            Command::PrintQuantity { copies } => self.quantity = quantity(copies),
            Command::FormatEnd => self.quantity = 1,
            _ => {}
        }
        self
    }
}
