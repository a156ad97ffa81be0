//! What a stream asks of its printer, and where in its bytes.
//!
//! - `request`: what is asked.
//! - `real_time`, `unit`, `name`: which bytes ask.
//! - `arrivals`, `units`, `labels`: real-time requests, units and commands of labels, byte by byte.
//! - `receipts`: both of a receipt. `requests`: those of a stream.
//! - `laws`: what holds of every stream.
#![tactic(auto)]

mod arrivals;
mod kept;
mod labels;
pub mod laws;
mod name;
mod real_time;
mod receipts;
pub mod request;
pub mod requests;
mod unit;
mod units;

pub use request::{Ask, Found, Request};
pub use requests::Requests;
