//! What calls of the library are told of printers, as numbers and texts, whatever memory these have.
//!
//! `making` makes printers and listings of numbers and bytes, and `asking` steps them, asks them and begins
//! them anew. What is told stands in `answer`, `fault`, `progress` and `held`; `texts` says what it means.
#![tactic(auto)]

mod answer;
mod asking;
mod fault;
mod held;
mod making;
mod progress;
mod text;
mod texts;

pub use answer::{NO_LANGUAGE, NO_MEMORY, NO_PRINTER, OK, PENDING, Refusal, SHEET_A, SHEET_B};
pub use asking::{begin_anew, ending, held_now, pending, step};
pub use fault::{FaultOfC, NO_FAULT};
pub use held::{HeldNow, NOTHING_HELD};
pub use making::{language_of, listed, made};
pub use progress::{MORE, NOTHING, Progress, ROOM, STOPPED};
pub use texts::{answer_text, fault_line, version};
