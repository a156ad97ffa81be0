//! A printer that takes bytes and puts bytes out, with both cut at any place, in every language and its
//! listing.
//!
//! `machine` knows the languages, `lines` a listing's lines and `offset` their places; `printer` is the
//! printer over any of them, `all` prints a whole input, `session` stands between a reader and a writer (of
//! `vp_streams`) with two buffers (`buffer`), `listing` lists what a reader gives, and
//! `listing_with_offsets` with its places. `laws` says what holds of every stream.
#![tactic(auto, using(vp_dots::proofs::Handles::list_small))]

mod all;
mod buffer;
mod held;
pub mod laws;
mod lines;
mod listing;
mod listing_with_offsets;
mod machine;
mod offset;
mod printer;
mod session;

pub use all::print_all;
pub use held::Held;
pub use listing::list;
pub use listing_with_offsets::list_with_offsets;
pub use printer::{Printer, State, Step};
pub use session::{Report, RunFault, Session};
pub use vp_join::{JoinFault, join};
pub use vp_language::Language;
pub use vp_streams::{Counted, Sink, Source};
