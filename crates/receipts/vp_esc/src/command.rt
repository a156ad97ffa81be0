//! The commands by their first two bytes, and how many arguments they have.
ghost use Rattle.std.specs.Prelude.{◌≡◌, ◌≤◌, ◌<◌, ◌∷◌, length, slice_index};
ghost use Rattle.vp_esc.specs.Command.{lead_of, lead_byte, command_of, profile_command, added_command};
ghost use Rattle.vp_esc.specs.Command.{esc_command, gs_command, fs_command, dle_command};
ghost use Rattle.vp_esc.specs.Command.{esc_added, gs_added, fs_added, dle_added};
ghost use Rattle.vp_esc.specs.Command.{request_len as request_len_as, past_len, past_has};
ghost use Rattle.vp_esc.specs.Command.{count_of, has_feed as has_feed_as, has_second as has_second_as, plain_len};
ghost use Rattle.vp_esc.specs.Command.{head_len, lists, has as has_as, adds as adds_as};
ghost use Rattle.vp_esc.specs.Units.{alone_item, of_byte_item, of_word_item, cut_item as cut_item_as};
ghost use Rattle.vp_esc.specs.Units.{plain_item, past_data};

use crate::item::{EscItem, HEAD_BYTES, Lead};
use crate::reading::Reading;
use crate::value::{
    bit, cut_of, direction_of, font_of, hri_position_of, is_added_kind, is_column_mode, is_cut,
    is_feed_cut, is_kind_counted, is_kind_to_zero, is_other_cut, justification_of,
    magnification_of, print_mode_of, spelled, underline_of, word,
};
use arrayvec::ArrayVec;

/// The commands without arguments.
#[derive(Clone, Copy)]
pub enum Alone {
    DefaultLineSpacing,
    Initialize,
    PageMode,
    StandardMode,
    PrintPage,
    CutLeavingOnePoint,
    CutLeavingThreePoints,
}

/// The commands of one byte.
#[derive(Clone, Copy)]
pub enum OfByte {
    RightSpacing,
    PrintMode,
    Underline,
    LineSpacing,
    Emphasized,
    DoubleStrike,
    FeedDots,
    FeedLines,
    Font,
    Direction,
    Justify,
    Magnify,
    Inverse,
    HriPosition,
    HriFont,
    BarHeight,
    BarModule,
}

/// The commands of one number of two bytes.
#[derive(Clone, Copy)]
pub enum OfWord {
    Position,
    MovePosition,
    VerticalPosition,
    MoveVerticalPosition,
    LeftMargin,
    AreaWidth,
}

/// How many arguments a command without effect has.
#[derive(Clone, Copy)]
pub enum Arguments {
    None,
    One,
    Two,
    Three,
}

/// The commands without data.
#[derive(Clone, Copy)]
pub enum Plain {
    Alone(Alone),
    OfByte(OfByte),
    OfWord(OfWord),
    /// ESC W
    Area,
    /// GS V
    Cut,
    /// ESC c, without effect.
    Sensor,
    /// DLE EOT, without effect.
    RealTime,
    /// Without effect.
    Unused(Arguments),
}

/// Commands of the whole language without effect whose head says how long they are.
#[derive(Clone, Copy)]
pub enum ReadPast {
    /// ESC ( and FS (: what stands behind the count.
    Family,
    /// GS *: a picture to be stored, and its columns.
    StoredImage,
    /// GS Q 0: a picture by columns.
    ColumnImage,
    /// FS 2: a character of two bytes, and its dots.
    TwoByteCell,
    /// FS g 1 and 2: bytes to be kept, or told.
    UserBytes,
    /// GS C 0, 1 and 2
    Counter,
    /// GS g 0 and 2
    Maintenance,
    /// GS z 0
    Recovery,
    /// FS a 0, 1 and 2
    Cheque,
    /// DLE DC4
    RealTimeRequest,
}

/// The commands of several bytes.
#[derive(Clone, Copy)]
pub enum Command {
    Plain(Plain),
    /// ESC D
    TabStops,
    /// ESC *
    Columns,
    /// GS v 0
    Raster,
    /// GS k
    Symbol,
    /// GS (
    Function,
    /// GS 8
    Graphics,
    ReadPast(ReadPast),
}

impl Lead {
    pub fn of(byte: u8) -> Option<Lead>
        ensures { result ≡ lead_of byte }
    {
        match byte {
            0x1B => Some(Lead::Esc),
            0x1D => Some(Lead::Gs),
            0x1C => Some(Lead::Fs),
            0x10 => Some(Lead::Dle),
            _ => None,
        }
    }

    pub fn byte(self) -> u8
        ensures { result ≡ lead_byte self }
    {
        match self {
            Lead::Esc => 0x1B,
            Lead::Gs => 0x1D,
            Lead::Fs => 0x1C,
            Lead::Dle => 0x10,
        }
    }
}

#[tactic(auto, unfolding(crate::specs::Command::command_of))]
impl Command {
    pub fn of(reading: Reading, lead: Lead, byte: u8) -> Option<Command>
        ensures { result ≡ command_of reading lead byte }
    {
        match Command::of_profile(lead, byte) {
            None => match reading {
                Reading::Profile => None,
                Reading::Whole => Command::added(lead, byte),
            },
            known => known,
        }
    }

    /// The commands of the profile.
    fn of_profile(lead: Lead, byte: u8) -> Option<Command>
        ensures { result ≡ profile_command lead byte }
    {
        match lead {
            Lead::Esc => Command::after_esc(byte),
            Lead::Gs => Command::after_gs(byte),
            Lead::Fs => Command::after_fs(byte),
            Lead::Dle => Command::after_dle(byte),
        }
    }

    /// The commands that the whole language adds.
    fn added(lead: Lead, byte: u8) -> Option<Command>
        ensures { result ≡ added_command lead byte }
    {
        match lead {
            Lead::Esc => Command::added_to_esc(byte),
            Lead::Gs => Command::added_to_gs(byte),
            Lead::Fs => Command::added_to_fs(byte),
            Lead::Dle => Command::added_to_dle(byte),
        }
    }

    fn after_esc(byte: u8) -> Option<Command>
        ensures { result ≡ esc_command byte }
    {
        let plain = match byte {
            0x0C => Plain::Alone(Alone::PrintPage),
            0x20 => Plain::OfByte(OfByte::RightSpacing),
            0x21 => Plain::OfByte(OfByte::PrintMode),
            0x24 => Plain::OfWord(OfWord::Position),
            0x2A => return Some(Command::Columns),
            0x2D => Plain::OfByte(OfByte::Underline),
            0x32 => Plain::Alone(Alone::DefaultLineSpacing),
            0x33 => Plain::OfByte(OfByte::LineSpacing),
            0x40 => Plain::Alone(Alone::Initialize),
            0x44 => return Some(Command::TabStops),
            0x45 => Plain::OfByte(OfByte::Emphasized),
            0x47 => Plain::OfByte(OfByte::DoubleStrike),
            0x4A => Plain::OfByte(OfByte::FeedDots),
            0x4C => Plain::Alone(Alone::PageMode),
            0x4D => Plain::OfByte(OfByte::Font),
            0x53 => Plain::Alone(Alone::StandardMode),
            0x54 => Plain::OfByte(OfByte::Direction),
            0x57 => Plain::Area,
            0x5C => Plain::OfWord(OfWord::MovePosition),
            0x61 => Plain::OfByte(OfByte::Justify),
            0x63 => Plain::Sensor,
            0x64 => Plain::OfByte(OfByte::FeedLines),
            0x69 => Plain::Alone(Alone::CutLeavingOnePoint),
            0x6D => Plain::Alone(Alone::CutLeavingThreePoints),
            0x70 => Plain::Unused(Arguments::Three),
            0x25 | 0x3D | 0x3F | 0x52 | 0x55 | 0x56 | 0x72 | 0x74 | 0x7B => Plain::Unused(
                Arguments::One,
            ),
            _ => return None,
        };
        Some(Command::Plain(plain))
    }

    fn after_gs(byte: u8) -> Option<Command>
        ensures { result ≡ gs_command byte }
    {
        let plain = match byte {
            0x21 => Plain::OfByte(OfByte::Magnify),
            0x24 => Plain::OfWord(OfWord::VerticalPosition),
            0x28 => return Some(Command::Function),
            0x38 => return Some(Command::Graphics),
            0x42 => Plain::OfByte(OfByte::Inverse),
            0x48 => Plain::OfByte(OfByte::HriPosition),
            0x4C => Plain::OfWord(OfWord::LeftMargin),
            0x50 => Plain::Unused(Arguments::Two),
            0x56 => Plain::Cut,
            0x57 => Plain::OfWord(OfWord::AreaWidth),
            0x5C => Plain::OfWord(OfWord::MoveVerticalPosition),
            0x66 => Plain::OfByte(OfByte::HriFont),
            0x68 => Plain::OfByte(OfByte::BarHeight),
            0x6B => return Some(Command::Symbol),
            0x76 => return Some(Command::Raster),
            0x77 => Plain::OfByte(OfByte::BarModule),
            0x49 | 0x61 | 0x62 | 0x72 => Plain::Unused(Arguments::One),
            _ => return None,
        };
        Some(Command::Plain(plain))
    }

    fn after_fs(byte: u8) -> Option<Command>
        ensures { result ≡ fs_command byte }
    {
        match byte {
            0x26 | 0x2E => Some(Command::Plain(Plain::Unused(Arguments::None))),
            0x21 | 0x2D | 0x43 | 0x57 => Some(Command::Plain(Plain::Unused(Arguments::One))),
            0x53 | 0x70 => Some(Command::Plain(Plain::Unused(Arguments::Two))),
            _ => None,
        }
    }

    fn after_dle(byte: u8) -> Option<Command>
        ensures { result ≡ dle_command byte }
    {
        match byte {
            0x04 => Some(Command::Plain(Plain::RealTime)),
            0x05 => Some(Command::Plain(Plain::Unused(Arguments::One))),
            _ => None,
        }
    }

    fn added_to_esc(byte: u8) -> Option<Command>
        ensures { result ≡ esc_added byte }
    {
        let arguments = match byte {
            0x28 => return Some(Command::ReadPast(ReadPast::Family)),
            0x3C | 0x6F | 0x71 | 0x76 => Arguments::None,
            0x46 | 0x4B | 0x65 | 0x75 | 0x7A => Arguments::One,
            0x66 => Arguments::Two,
            _ => return None,
        };
        Some(Command::Plain(Plain::Unused(arguments)))
    }

    fn added_to_gs(byte: u8) -> Option<Command>
        ensures { result ≡ gs_added byte }
    {
        let arguments = match byte {
            0x2A => return Some(Command::ReadPast(ReadPast::StoredImage)),
            0x43 => return Some(Command::ReadPast(ReadPast::Counter)),
            0x51 => return Some(Command::ReadPast(ReadPast::ColumnImage)),
            0x67 => return Some(Command::ReadPast(ReadPast::Maintenance)),
            0x7A => return Some(Command::ReadPast(ReadPast::Recovery)),
            0x0C | 0x3A | 0x3C | 0x63 => Arguments::None,
            0x2F | 0x45 | 0x54 | 0x6A => Arguments::One,
            0x41 => Arguments::Two,
            0x5E => Arguments::Three,
            _ => return None,
        };
        Some(Command::Plain(Plain::Unused(arguments)))
    }

    fn added_to_fs(byte: u8) -> Option<Command>
        ensures { result ≡ fs_added byte }
    {
        let arguments = match byte {
            0x28 => return Some(Command::ReadPast(ReadPast::Family)),
            0x32 => return Some(Command::ReadPast(ReadPast::TwoByteCell)),
            0x61 => return Some(Command::ReadPast(ReadPast::Cheque)),
            0x67 => return Some(Command::ReadPast(ReadPast::UserBytes)),
            0x63 => Arguments::None,
            0x62 => Arguments::One,
            0x3F => Arguments::Two,
            _ => return None,
        };
        Some(Command::Plain(Plain::Unused(arguments)))
    }

    fn added_to_dle(byte: u8) -> Option<Command>
        ensures { result ≡ dle_added byte }
    {
        match byte {
            0x14 => Some(Command::ReadPast(ReadPast::RealTimeRequest)),
            _ => None,
        }
    }

    /// How many arguments come before any data, as far as these tell.
    pub fn head_len(self, args: &[u8]) -> usize
        ensures { result ≡ head_len self args.now }
    {
        match self {
            Command::Plain(plain) => plain.len(args),
            Command::TabStops => 0,
            Command::Columns | Command::Function => 3,
            Command::Raster => 6,
            Command::Symbol => if is_kind_to_zero(first(args)) { 1 } else { 2 },
            Command::Graphics => 5,
            Command::ReadPast(past) => past.len(args),
        }
    }

    /// Whether the table has the command with this first argument, which may be a part of its name.
    pub fn lists(self, reading: Reading, first: u8) -> bool
        ensures { result ≡ lists reading self first }
    {
        match reading {
            Reading::Profile => self.has(first),
            Reading::Whole => self.has(first) || self.adds(first),
        }
    }

    /// Whether it has this first argument in each reading.
    fn has(self, first: u8) -> bool
        ensures { result ≡ has_as self first }
    {
        match self {
            Command::Plain(Plain::Cut) => is_cut(first) || is_feed_cut(first),
            Command::Plain(Plain::Sensor) => 0x33 <= first && first <= 0x35,
            Command::Columns => is_column_mode(first),
            Command::Raster => first == 0x30,
            Command::Symbol => is_kind_to_zero(first) || is_kind_counted(first),
            Command::Graphics => first == 0x4C,
            Command::ReadPast(past) => past.has(first),
            _ => true,
        }
    }

    /// Whether the whole language adds this first argument.
    fn adds(self, first: u8) -> bool
        ensures { result ≡ adds_as self first }
    {
        match self {
            Command::Plain(Plain::Cut) => is_other_cut(first),
            Command::Plain(Plain::Sensor) => first == 0x30 || first == 0x31,
            Command::Symbol => is_added_kind(first),
            Command::Graphics => true,
            _ => false,
        }
    }
}

impl ReadPast {
    /// How many arguments come before any data, as far as these tell.
    fn len(self, args: &[u8]) -> usize
        ensures { result ≡ past_len self args.now }
    {
        match self {
            ReadPast::Family | ReadPast::Recovery => 3,
            ReadPast::StoredImage | ReadPast::TwoByteCell => 2,
            ReadPast::ColumnImage => 6,
            ReadPast::UserBytes => 8,
            ReadPast::Counter => if first(args) == 0x31 { 7 } else { 3 },
            ReadPast::Maintenance => 4,
            ReadPast::Cheque => if first(args) == 0x30 { 2 } else { 1 },
            ReadPast::RealTimeRequest => request_len(first(args)),
        }
    }

    /// Whether the table has the command with this first argument.
    fn has(self, first: u8) -> bool
        ensures { result ≡ past_has self first }
    {
        match self {
            ReadPast::ColumnImage | ReadPast::Recovery => first == 0x30,
            ReadPast::UserBytes => first == 0x31 || first == 0x32,
            ReadPast::Counter | ReadPast::Cheque => {
                first == 0x30 || first == 0x31 || first == 0x32
            }
            ReadPast::Maintenance => first == 0x30 || first == 0x32,
            ReadPast::Family
            | ReadPast::StoredImage
            | ReadPast::TwoByteCell
            | ReadPast::RealTimeRequest => true,
        }
    }

    /// How many bytes of data come behind these arguments, at most 65,535 times 65,535.
    pub fn data_len(self, args: &[u8]) -> u32
        requires { length args.now ≡ past_len self args.now }
        ensures { result ≡ past_data self args.now }
    {
        match self {
            ReadPast::Family => word(args[1], args[2]) as u32,
            ReadPast::StoredImage => 8 * (args[0] as u32 * args[1] as u32),
            ReadPast::ColumnImage => word(args[2], args[3]) as u32 * word(args[4], args[5]) as u32,
            ReadPast::TwoByteCell => 72,
            ReadPast::UserBytes if args[0] == 0x31 => word(args[6], args[7]) as u32,
            _ => 0,
        }
    }
}

impl Arguments {
    fn count(self) -> usize
        ensures { result ≡ count_of self }
    {
        match self {
            Arguments::None => 0,
            Arguments::One => 1,
            Arguments::Two => 2,
            Arguments::Three => 3,
        }
    }
}

impl Plain {
    /// How many arguments it has, as far as these tell.
    fn len(self, args: &[u8]) -> usize
        ensures { result ≡ plain_len self args.now }
    {
        match self {
            Plain::Alone(_) => 0,
            Plain::OfByte(_) => 1,
            Plain::OfWord(_) => 2,
            Plain::Area => 8,
            Plain::Cut => if has_feed(first(args)) { 2 } else { 1 },
            Plain::Sensor => 2,
            Plain::RealTime => if has_second(first(args)) { 2 } else { 1 },
            Plain::Unused(arguments) => arguments.count(),
        }
    }

    /// Writes what it does with these arguments, after this lead and the byte after it.
    pub fn write(self, lead: Lead, name: u8, args: &[u8], item: &mut EscItem)
        requires { length args.now ≡ plain_len self args.now }
        ensures { item.new ≡ plain_item lead name self args.now }
    {
        match self {
            Plain::Alone(command) => *item = command.item(),
            Plain::OfByte(command) => *item = command.item(args[0]),
            Plain::OfWord(command) => *item = command.item(word(args[0], args[1])),
            Plain::Area => *item = EscItem::Area {
                x: word(args[0], args[1]),
                y: word(args[2], args[3]),
                width: word(args[4], args[5]),
                height: word(args[6], args[7]),
            },
            Plain::Cut if !is_other_cut(args[0]) => *item = cut_item(args),
            Plain::Cut | Plain::Sensor | Plain::RealTime | Plain::Unused(_) => {
                *item = EscItem::WithoutEffect {
                    lead,
                    bytes: unused(name, args),
                };
            }
        }
    }
}

impl Alone {
    #[inline(always)]
    fn item(self) -> EscItem
        ensures { result ≡ alone_item self }
    {
        match self {
            Alone::DefaultLineSpacing => EscItem::DefaultLineSpacing,
            Alone::Initialize => EscItem::Initialize,
            Alone::PageMode => EscItem::PageMode,
            Alone::StandardMode => EscItem::StandardMode,
            Alone::PrintPage => EscItem::PrintPage,
            Alone::CutLeavingOnePoint => EscItem::CutLeavingOnePoint,
            Alone::CutLeavingThreePoints => EscItem::CutLeavingThreePoints,
        }
    }
}

impl OfByte {
    #[inline(always)]
    fn item(self, n: u8) -> EscItem
        ensures { result ≡ of_byte_item self n }
    {
        match self {
            OfByte::RightSpacing => EscItem::RightSpacing(n),
            OfByte::PrintMode => EscItem::PrintMode(spelled(n, print_mode_of(n))),
            OfByte::Underline => EscItem::Underline(spelled(n, underline_of(n))),
            OfByte::LineSpacing => EscItem::LineSpacing(n),
            OfByte::Emphasized => EscItem::Emphasized(spelled(n, bit(n, 0))),
            OfByte::DoubleStrike => EscItem::DoubleStrike(spelled(n, bit(n, 0))),
            OfByte::FeedDots => EscItem::FeedDots(n),
            OfByte::FeedLines => EscItem::FeedLines(n),
            OfByte::Font => EscItem::Font(spelled(n, font_of(n))),
            OfByte::Direction => EscItem::Direction(spelled(n, direction_of(n))),
            OfByte::Justify => EscItem::Justify(spelled(n, justification_of(n))),
            OfByte::Magnify => EscItem::Magnify(spelled(n, magnification_of(n))),
            OfByte::Inverse => EscItem::Inverse(spelled(n, bit(n, 0))),
            OfByte::HriPosition => EscItem::HriPosition(spelled(n, hri_position_of(n))),
            OfByte::HriFont => EscItem::HriFont(spelled(n, font_of(n))),
            OfByte::BarHeight => EscItem::BarHeight(n),
            OfByte::BarModule => EscItem::BarModule(n),
        }
    }
}

impl OfWord {
    #[inline(always)]
    fn item(self, n: u16) -> EscItem
        ensures { result ≡ of_word_item self n }
    {
        match self {
            OfWord::Position => EscItem::Position(n),
            OfWord::MovePosition => EscItem::MovePosition(n.cast_signed()),
            OfWord::VerticalPosition => EscItem::VerticalPosition(n),
            OfWord::MoveVerticalPosition => EscItem::MoveVerticalPosition(n.cast_signed()),
            OfWord::LeftMargin => EscItem::LeftMargin(n),
            OfWord::AreaWidth => EscItem::AreaWidth(n),
        }
    }
}

/// GS V m, and n where m is 65 or 66.
#[inline(always)]
fn cut_item(args: &[u8]) -> EscItem
    requires { length args.now ≡ plain_len Plain.Cut args.now }
    ensures { result ≡ cut_item_as (slice_index args.now 0) (slice_index args.now 1) }
{
    let m = args[0];
    let cut = spelled(m, cut_of(m));
    if is_feed_cut(m) {
        EscItem::FeedAndCut { cut, dots: args[1] }
    } else {
        EscItem::Cut(cut)
    }
}

/// The bytes after the lead of a command without effect.
pub fn unused(name: u8, args: &[u8]) -> ArrayVec<u8, HEAD_BYTES>
    requires { length args.now < HEAD_BYTES }
    ensures { result.items ≡ name ∷ args.now }
{
    let mut bytes = ArrayVec::new();
    bytes.push(name);
    let _fits = bytes.try_extend_from_slice(args);
    bytes
}

/// The first argument, 0 where there is none.
fn first(args: &[u8]) -> u8
    ensures { result ≡ slice_index args.now 0 }
{
    match args {
        [] => 0,
        [first, ..] => *first,
    }
}

/// Whether GS V m has one more argument.
fn has_feed(m: u8) -> bool
    ensures { result ≡ has_feed_as m }
{
    is_feed_cut(m) || is_other_cut(m)
}

/// How many arguments DLE DC4 has, with this first one.
fn request_len(function: u8) -> usize
    ensures { result ≡ request_len_as function }
{
    match function {
        0x03 => 6,
        0x07 => 2,
        0x08 => 8,
        _ => 3,
    }
}

/// Whether DLE EOT n has one more argument.
fn has_second(n: u8) -> bool
    ensures { result ≡ has_second_as n }
{
    n == 0x07 || n == 0x08 || n == 0x12
}
