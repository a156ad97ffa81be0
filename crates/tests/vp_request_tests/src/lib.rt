//! Tests of what streams ask, by vp_requests: worked examples, whole and in pieces.
#![tactic(auto)]

#[cfg(test)]
mod asked;
#[cfg(test)]
mod checks;
