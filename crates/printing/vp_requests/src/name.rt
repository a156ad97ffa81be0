//! Which commands of a label ask.
ghost use Rattle.std.specs.Prelude.{◌≡◌, ◌≤◌};
ghost use Rattle.vp_zpl.specs.Spelling.{capital as capital_is, is_line_end as is_line_end_as};
ghost use Rattle.vp_zpl.specs.Runs.{ends_data as ends_data_as};
ghost use Rattle.vp_requests.specs.Labels.{tilde_h_ask as tilde_h_is, tilde_j_ask as tilde_j_is};
ghost use Rattle.vp_requests.specs.Labels.{tilde_p_ask as tilde_p_is};
ghost use Rattle.vp_requests.specs.Labels.{tilde_ask as tilde_is, caret_ask as caret_is};
ghost use Rattle.vp_requests.specs.Labels.{ask_named as ask_named_is};
ghost use Rattle.vp_requests.specs.Labels.{ask_of as ask_is, most_arguments as most_is};

use crate::request::{Ask, MOST_ARGUMENTS};

/// The bytes that are no data but in binary data: ^ and ~, and the ends of lines.
pub fn ends_data(byte: u8) -> bool
    ensures { result ≡ ends_data_as byte }
{
    byte == b'^' || byte == b'~' || is_line_end(byte)
}

/// CR and LF
pub fn is_line_end(byte: u8) -> bool
    ensures { result ≡ is_line_end_as byte }
{
    byte == b'\r' || byte == b'\n'
}

#[tactic(auto, unfolding(vp_zpl::specs::Spelling::capital))]
fn capital(byte: u8) -> u8
    ensures { result ≡ capital_is byte }
{
    if b'a' <= byte && byte <= b'z' {
        byte - 0x20
    } else {
        byte
    }
}

/// ~H.
fn tilde_h_ask(b: u8) -> Option<Ask>
    ensures { result ≡ tilde_h_is b }
{
    match b {
        b'S' => Some(Ask::HostStatus),
        b'I' => Some(Ask::HostIdentification),
        b'M' => Some(Ask::HostMemory),
        b'U' => Some(Ask::HostAlerts),
        b'D' => Some(Ask::HeadDiagnostic),
        b'B' => Some(Ask::BatteryStatus),
        b'Q' => Some(Ask::HostQuery),
        _ => None,
    }
}

/// ~J.
fn tilde_j_ask(b: u8) -> Option<Ask>
    ensures { result ≡ tilde_j_is b }
{
    match b {
        b'A' => Some(Ask::CancelAll),
        b'R' => Some(Ask::PowerOnReset),
        b'X' => Some(Ask::CancelFormat),
        _ => None,
    }
}

/// ~P.
fn tilde_p_ask(b: u8) -> Option<Ask>
    ensures { result ≡ tilde_p_is b }
{
    match b {
        b'P' => Some(Ask::Pause),
        b'S' => Some(Ask::PrintStart),
        _ => None,
    }
}

fn tilde_ask(a: u8, b: u8) -> Option<Ask>
    ensures { result ≡ tilde_is a b }
{
    match a {
        b'H' => tilde_h_ask(b),
        b'J' => tilde_j_ask(b),
        b'P' => tilde_p_ask(b),
        b'S' if b == b'D' => Some(Ask::SetDarkness),
        _ => None,
    }
}

fn caret_ask(a: u8, b: u8) -> Option<Ask>
    ensures { result ≡ caret_is a b }
{
    if a != b'H' {
        return None;
    }
    match b {
        b'H' => Some(Ask::Configuration),
        b'V' => Some(Ask::HostVerification),
        b'W' => Some(Ask::HostDirectory),
        b'Z' => Some(Ask::DisplayDescription),
        b'F' => Some(Ask::HostFormat),
        b'G' => Some(Ask::HostGraphic),
        b'Y' => Some(Ask::UploadGraphics),
        b'T' => Some(Ask::LinkedFonts),
        _ => None,
    }
}

fn ask_named(sign: u8, a: u8, b: u8) -> Option<Ask>
    ensures { result ≡ ask_named_is sign a b }
{
    match sign {
        b'~' => tilde_ask(a, b),
        b'^' => caret_ask(a, b),
        _ => None,
    }
}

/// What a command asks.
#[tactic(auto, unfolding(crate::specs::Labels::ask_of))]
pub fn ask_of(command: &[u8]) -> Option<Ask>
    ensures { result ≡ ask_is command.now }
{
    match command {
        [sign, a, b, ..] => ask_named(*sign, capital(*a), capital(*b)),
        _ => None,
    }
}

/// How many bytes of arguments are waited for.
pub fn most_arguments(ask: Ask) -> usize
    ensures value { result ≡ most_is ask }
    ensures few { result ≤ MOST_ARGUMENTS }
{
    match ask {
        Ask::HostQuery | Ask::SetDarkness => 2,
        Ask::HostVerification
        | Ask::HostDirectory
        | Ask::DisplayDescription
        | Ask::HostFormat
        | Ask::HostGraphic
        | Ask::UploadGraphics
        | Ask::LinkedFonts => MOST_ARGUMENTS,
        _ => 0,
    }
}
