//! How a run of the program ends before all is printed: the line that says why, and the exit status.
#![tactic(auto)]

mod stop;

pub use stop::Stop;
