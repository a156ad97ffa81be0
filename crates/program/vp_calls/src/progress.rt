//! What a step has come to, as C is told it.
ghost use Rattle.std.specs.Prelude.{◌≡◌};
ghost use Rattle.vp_calls.specs.Steps.{progress_of};

use crate::fault::{FaultOfC, NO_FAULT};
use vp_engine::{State, Step};

/// All input is taken, and nothing is pending.
pub const MORE: u32 = 0;
/// The output is full, and more is pending.
pub const ROOM: u32 = 1;
/// Nothing is taken or put out any more.
pub const STOPPED: u32 = 2;

/// How many bytes a step took and put out, what it has come to, and the fault where it stopped.
#[repr(C)]
#[derive(Clone, Copy, Debug, PartialEq, Eq)]
pub struct Progress {
    taken: usize,
    put: usize,
    state: u32,
    fault: FaultOfC,
}

/// Nothing taken, and nothing put out.
pub const NOTHING: Progress = Progress {
    taken: 0,
    put: 0,
    state: MORE,
    fault: NO_FAULT,
};

impl Progress {
    /// A step's.
    pub fn of(step: Step) -> Self
        ensures { result ≡ progress_of step }
    {
        let (state, fault) = match step.state {
            State::More => (MORE, NO_FAULT),
            State::Room => (ROOM, NO_FAULT),
            State::Stopped(fault) => (STOPPED, FaultOfC::of(fault)),
        };
        Progress {
            taken: step.taken,
            put: step.put,
            state,
            fault,
        }
    }
}
