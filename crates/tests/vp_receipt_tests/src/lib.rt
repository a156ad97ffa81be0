//! Tests of receipts through public calls: `esc` of what bytes say, by vp_esc's reader, and `receipt` of what
//! its items print, by vp_receipt.
#![tactic(auto)]

#[cfg(test)]
mod checks;
#[cfg(test)]
mod esc;
#[cfg(test)]
mod receipt;
