//! What is asked, and where.
ghost use Rattle.std.specs.Prelude.{◌≡◌, ◌≤◌, ◌∷◌, drop, length};
ghost use Rattle.vp_requests.specs.Request.{request_of, name_of};

use arrayvec::ArrayVec;

/// The most bytes of a request's arguments. A receipt's has at most 16.
pub const MOST_ARGUMENTS: usize = 1024;

/// What is asked, by the manuals' names.
#[derive(Clone, Copy, Debug, PartialEq, Eq)]
pub enum Ask {
    /// DLE EOT: a state, at once.
    Status,
    /// DLE ENQ: to recover, at once.
    Recover,
    /// DLE DC4: an action or a state, at once.
    RealTime,
    /// GS r: a state.
    Sensor,
    /// GS I: what the printer is.
    PrinterId,
    /// GS a: states whenever they change.
    AutomaticStatus,
    /// ESC u: the drawer's state.
    Drawer,
    /// ESC v: the paper's state.
    Paper,
    /// GS g: what the maintenance counters say.
    Maintenance,
    /// GS j: the ink's state whenever it changes.
    Ink,
    /// GS ( H: an answer that is told by its number.
    Response,
    /// GS ( E: settings.
    Setup,
    /// GS ( L: graphics that are stored.
    Graphics,
    /// GS ( k 82: the size of the symbol that is stored.
    SymbolSize,

    /// ~HS
    HostStatus,
    /// ~HI
    HostIdentification,
    /// ~HM
    HostMemory,
    /// ~HU: alerts.
    HostAlerts,
    /// ~HD: the head's diagnostics.
    HeadDiagnostic,
    /// ~HB: the battery.
    BatteryStatus,
    /// ~HQ
    HostQuery,
    /// ^HH: the configuration.
    Configuration,
    /// ^HV: a field of the label.
    HostVerification,
    /// ^HW: a directory.
    HostDirectory,
    /// ^HZ
    DisplayDescription,
    /// ^HF: a format that is stored.
    HostFormat,
    /// ^HG: a picture that is stored.
    HostGraphic,
    /// ^HY: a picture, with its head.
    UploadGraphics,
    /// ^HT: fonts.
    LinkedFonts,
    /// ~PP
    Pause,
    /// ~PS
    PrintStart,
    /// ~JA
    CancelAll,
    /// ~JR
    PowerOnReset,
    /// ~JX
    CancelFormat,
    /// ~SD
    SetDarkness,
}

/// A request: its arguments, the bytes behind its name, and the places of its first byte and behind its last.
/// A place is how many bytes of the stream come before it; it stops at the greatest u64.
#[derive(Clone, Drop)]
pub struct Request {
    pub ask: Ask,
    pub arguments: ArrayVec<u8, MOST_ARGUMENTS>,
    pub start: u64,
    pub end: u64,
}

impl Request {
    /// The request of these bytes, the first of which are its name.
    #[inline(never)]
    pub(crate) fn of(ask: Ask, name_len: usize, bytes: &[u8], start: u64, end: u64) -> Request
        requires { length (drop name_len bytes.now) ≤ MOST_ARGUMENTS }
        ensures { result ≡ request_of ask name_len bytes.now start end }
    {
        let mut arguments = ArrayVec::new();
        let _fits = arguments.try_extend_from_slice(&bytes[name_len.min(bytes.len())..]);
        Request {
            ask,
            arguments,
            start,
            end,
        }
    }
}

/// How many bytes were taken, and the request that was known then. Where there is none, all were taken.
#[derive(Drop)]
pub struct Found {
    pub taken: usize,
    pub request: Option<Request>,
}

#[tactic(auto, unfolding(crate::specs::Request::name_of))]
impl Ask {
    /// The command's name, as its manual writes it: at most seven characters.
    pub fn name(self) -> &'static str
        ensures value { result.now ≡ name_of self }
        ensures few { length result.now ≤ 7 }
    {
        match self {
            Ask::Status => "DLE EOT",
            Ask::Recover => "DLE ENQ",
            Ask::RealTime => "DLE DC4",
            Ask::Sensor => "GS r",
            Ask::PrinterId => "GS I",
            Ask::AutomaticStatus => "GS a",
            Ask::Drawer => "ESC u",
            Ask::Paper => "ESC v",
            Ask::Maintenance => "GS g",
            Ask::Ink => "GS j",
            Ask::Response => "GS ( H",
            Ask::Setup => "GS ( E",
            Ask::Graphics => "GS ( L",
            Ask::SymbolSize => "GS ( k",
            Ask::HostStatus => "~HS",
            Ask::HostIdentification => "~HI",
            Ask::HostMemory => "~HM",
            Ask::HostAlerts => "~HU",
            Ask::HeadDiagnostic => "~HD",
            Ask::BatteryStatus => "~HB",
            Ask::HostQuery => "~HQ",
            Ask::Configuration => "^HH",
            Ask::HostVerification => "^HV",
            Ask::HostDirectory => "^HW",
            Ask::DisplayDescription => "^HZ",
            Ask::HostFormat => "^HF",
            Ask::HostGraphic => "^HG",
            Ask::UploadGraphics => "^HY",
            Ask::LinkedFonts => "^HT",
            Ask::Pause => "~PP",
            Ask::PrintStart => "~PS",
            Ask::CancelAll => "~JA",
            Ask::PowerOnReset => "~JR",
            Ask::CancelFormat => "~JX",
            Ask::SetDarkness => "~SD",
        }
    }
}
