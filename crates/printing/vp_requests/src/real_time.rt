//! Which bytes are real-time requests of a receipt.
ghost use Rattle.std.specs.Prelude.{◌≡◌};
ghost use Rattle.vp_requests.specs.RealTime.{begun_if as begun_if_as, whole_if as whole_if_as};
ghost use Rattle.vp_requests.specs.RealTime.{is_within as is_within_as};
ghost use Rattle.vp_requests.specs.RealTime.{status_part as status_is, recover_part as recover_is};
ghost use Rattle.vp_requests.specs.RealTime.{pulse_part as pulse_is};
ghost use Rattle.vp_requests.specs.RealTime.{buzzer_part as buzzer_is, state_part as state_is};
ghost use Rattle.vp_requests.specs.RealTime.{row_part as row_is, action_part as action_is};
ghost use Rattle.vp_requests.specs.RealTime.{part_of as part_is, ask_of as ask_is};

use crate::request::Ask;

/// The byte that each begins with.
pub const DLE: u8 = 0x10;

/// DLE DC4 2: what follows.
const POWER_OFF: [u8; 2] = [0x01, 0x08];

/// DLE DC4 8: what follows.
const CLEAR: [u8; 7] = [0x01, 0x03, 0x14, 0x01, 0x06, 0x02, 0x08];

/// What bytes are of a row of the table.
#[derive(Clone, Copy, Debug, PartialEq, Eq)]
pub enum Part {
    Whole,
    /// A front of a row.
    Begun,
    Neither,
}

fn begun_if(so: bool) -> Part
    ensures { result ≡ begun_if_as so }
{
    if so { Part::Begun } else { Part::Neither }
}

fn whole_if(so: bool) -> Part
    ensures { result ≡ whole_if_as so }
{
    if so { Part::Whole } else { Part::Neither }
}

fn is_within(low: u8, high: u8, n: u8) -> bool
    ensures { result ≡ is_within_as low high n }
{
    low <= n && n <= high
}

/// DLE EOT n, and its second argument.
fn status_part(args: &[u8]) -> Part
    ensures { result ≡ status_is args.now }
{
    match args {
        [] => Part::Begun,
        [n] => {
            if is_within(1, 4, *n) {
                return Part::Whole;
            }
            begun_if(*n == 0x07 || *n == 0x08 || *n == 0x12)
        }
        [n, a, ..] => whole_if(
            (*n == 0x07 || *n == 0x12) && is_within(1, 2, *a) || *n == 0x08 && *a == 3,
        ),
    }
}

/// DLE ENQ n.
fn recover_part(args: &[u8]) -> Part
    ensures { result ≡ recover_is args.now }
{
    match args {
        [] => Part::Begun,
        [n, ..] => whole_if(*n <= 2),
    }
}

/// DLE DC4 1 m t.
fn pulse_part(args: &[u8]) -> Part
    ensures { result ≡ pulse_is args.now }
{
    match args {
        [] => Part::Begun,
        [m] => begun_if(*m <= 1),
        [m, t, ..] => whole_if(*m <= 1 && is_within(1, 8, *t)),
    }
}

/// DLE DC4 3 a n r t1 t2.
fn buzzer_part(args: &[u8]) -> Part
    ensures { result ≡ buzzer_is args.now }
{
    if args.len() < 5 {
        Part::Begun
    } else {
        Part::Whole
    }
}

/// DLE DC4 7 m.
fn state_part(args: &[u8]) -> Part
    ensures { result ≡ state_is args.now }
{
    match args {
        [] => Part::Begun,
        [m, ..] => whole_if(is_within(1, 2, *m) || is_within(4, 5, *m)),
    }
}

/// DLE DC4 and the bytes of a row, one by one.
fn row_part(row: &[u8], args: &[u8]) -> Part
    ensures { result ≡ row_is row.now args.now }
{
    for i in 0..row.len() {
        if i == args.len() {
            return Part::Begun;
        }
        if args[i] != row[i] {
            return Part::Neither;
        }
    }
    Part::Whole
}

/// DLE DC4.
fn action_part(args: &[u8]) -> Part
    ensures { result ≡ action_is args.now }
{
    match args {
        [] => Part::Begun,
        [1, args @ ..] => pulse_part(args),
        [2, args @ ..] => row_part(&POWER_OFF, args),
        [3, args @ ..] => buzzer_part(args),
        [7, args @ ..] => state_part(args),
        [8, args @ ..] => row_part(&CLEAR, args),
        _ => Part::Neither,
    }
}

/// What bytes are of a request.
#[tactic(auto, unfolding(crate::specs::RealTime::part_of))]
pub fn part_of(bytes: &[u8]) -> Part
    ensures { result ≡ part_is bytes.now }
{
    match bytes {
        [] | [DLE] => Part::Begun,
        [DLE, 0x04, args @ ..] => status_part(args),
        [DLE, 0x05, args @ ..] => recover_part(args),
        [DLE, 0x14, args @ ..] => action_part(args),
        _ => Part::Neither,
    }
}

/// What a whole one asks.
pub fn ask_of(bytes: &[u8]) -> Ask
    ensures { result ≡ ask_is bytes.now }
{
    match bytes {
        [_, 0x04, ..] => Ask::Status,
        [_, 0x05, ..] => Ask::Recover,
        _ => Ask::RealTime,
    }
}
