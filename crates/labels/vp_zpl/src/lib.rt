//! Reads the commands of a label printer, byte by byte, and gives the items that they spell.
//! The spelling is that of Zebra's ZPL II programming guide.
//!
//! `ZplReader` takes one byte at a time and answers what that byte makes known: a command with its arguments,
//! or data of a field. `ZplItem::line` is an item's line in a listing.
//!
//! - `reading`: which commands a stream is read by, those of the profile or of the whole language.
//! - `item`: what a stream says. `name`: which command a name is. `part`: parameters as they are kept.
//! - `argument`: what parameters mean. `reader`: one byte at a time. `front`: data, a run at a time.
//! - `line`: the listing. `laws`: what holds of every stream.
#![tactic(auto)]

mod argument;
mod front;
pub mod item;
pub mod laws;
mod line;
mod name;
mod part;
mod reader;
pub mod reading;

pub use item::{Command, DataBytes, Sent, ZplItem};
pub use name::Name;
pub use part::Part;
pub use reader::ZplReader;
pub use reading::Reading;
