//! A request, as C is told it.
ghost use Rattle.std.specs.Prelude.{◌≡◌, ◌≤◌, length};
ghost use Rattle.vp_asking.specs.InC.{padded, request_in_c, found_in_c};

use vp_requests::Request;
use vp_requests::request::MOST_ARGUMENTS;

/// A request: its name as the manual writes it with zeros behind it, the places of its first byte and behind
/// its last, and its arguments with zeros behind them; all zeros where there is none.
#[repr(C)]
#[derive(Clone, Copy)]
pub struct RequestOfC {
    name: [u8; 8],
    start: u64,
    end: u64,
    count: u32,
    arguments: [u8; MOST_ARGUMENTS],
}

/// There is none.
pub const NO_REQUEST: RequestOfC = RequestOfC {
    name: [0; 8],
    start: 0,
    end: 0,
    count: 0,
    arguments: [0; MOST_ARGUMENTS],
};

/// Puts bytes to the front of some room.
fn put(bytes: &[u8], room: &mut [u8])
    requires { length bytes.now ≤ length room.old }
    ensures { room.new ≡ padded room.old bytes.now }
{
    room[..bytes.len()].copy_from_slice(bytes);
}

impl RequestOfC {
    /// A request's.
    fn of(request: &Request) -> Self
        ensures { result ≡ request_in_c request.now }
    {
        let mut name = [0; 8];
        put(request.ask.name().as_bytes(), &mut name);
        let mut arguments = [0; MOST_ARGUMENTS];
        put(request.arguments.as_slice(), &mut arguments);
        RequestOfC {
            name,
            start: request.start,
            end: request.end,
            count: request.arguments.len() as u32,
            arguments,
        }
    }

    /// That of what was found.
    pub fn of_found(found: &Option<Request>) -> Self
        ensures { result ≡ found_in_c found.now }
    {
        match found {
            Some(request) => RequestOfC::of(request),
            None => NO_REQUEST,
        }
    }
}
