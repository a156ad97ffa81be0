//! Which units of a receipt ask.
ghost use Rattle.std.specs.Prelude.{◌≡◌};
ghost use Rattle.vp_requests.specs.Units.{asks_for_graphics as graphics_is, asks_for_size as size_is};
ghost use Rattle.vp_requests.specs.Units.{function_ask as function_is, counted_ask as counted_is};
ghost use Rattle.vp_requests.specs.Units.{esc_ask as esc_is, gs_ask as gs_is, ask_of as ask_is};
ghost use Rattle.vp_requests.specs.Units.{name_len as name_is};

use crate::request::Ask;

/// The most bytes of a unit that asks: the five before the arguments of GS (, and those.
pub const LONGEST_UNIT: usize = 21;

/// Whether GS ( L asks, with these arguments.
fn asks_for_graphics(args: &[u8]) -> bool
    ensures { result ≡ graphics_is args.now }
{
    match args {
        [m, n, ..] => { *m == 0x30 && matches!(*n, 0 | 3 | 4 | 0x30 | 0x33 | 0x34 | 0x40 | 0x50) }
        _ => false,
    }
}

/// Whether GS ( k asks, with these arguments.
fn asks_for_size(args: &[u8]) -> bool
    ensures { result ≡ size_is args.now }
{
    match args {
        [cn, n, _] => *cn == 0x31 && *n == 0x52,
        _ => false,
    }
}

/// What GS ( asks, by the byte behind it and the arguments.
fn function_ask(x: u8, args: &[u8]) -> Option<Ask>
    ensures { result ≡ function_is x args.now }
{
    match x {
        0x48 => Some(Ask::Response),
        0x45 => Some(Ask::Setup),
        0x4C if asks_for_graphics(args) => Some(Ask::Graphics),
        0x6B if asks_for_size(args) => Some(Ask::SymbolSize),
        _ => None,
    }
}

/// What GS ( asks.
fn counted_ask(args: &[u8]) -> Option<Ask>
    ensures { result ≡ counted_is args.now }
{
    match args {
        [x, _, _, args @ ..] => function_ask(*x, args),
        _ => None,
    }
}

/// What a unit asks that begins with ESC.
fn esc_ask(name: u8) -> Option<Ask>
    ensures { result ≡ esc_is name }
{
    match name {
        0x75 => Some(Ask::Drawer),
        0x76 => Some(Ask::Paper),
        _ => None,
    }
}

/// What a unit asks that begins with GS.
fn gs_ask(name: u8, args: &[u8]) -> Option<Ask>
    ensures { result ≡ gs_is name args.now }
{
    match name {
        0x72 => Some(Ask::Sensor),
        0x49 => Some(Ask::PrinterId),
        0x61 => Some(Ask::AutomaticStatus),
        0x6A => Some(Ask::Ink),
        0x67 if args.len() == 4 => Some(Ask::Maintenance),
        0x28 => counted_ask(args),
        _ => None,
    }
}

/// What a unit asks.
#[tactic(auto, unfolding(crate::specs::Units::ask_of))]
pub fn ask_of(unit: &[u8]) -> Option<Ask>
    ensures { result ≡ ask_is unit.now }
{
    if unit.len() > LONGEST_UNIT {
        return None;
    }
    match unit {
        [0x1B, name, ..] => esc_ask(*name),
        [0x1D, name, args @ ..] => gs_ask(*name, args),
        _ => None,
    }
}

/// How many bytes of a unit name what it asks.
pub fn name_len(ask: Ask) -> usize
    ensures { result ≡ name_is ask }
{
    match ask {
        Ask::Response | Ask::Setup | Ask::Graphics | Ask::SymbolSize => 5,
        _ => 2,
    }
}
