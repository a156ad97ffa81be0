//! Tests of code tables, national sets, numbers of commands and decoding, by vp_code_tables.
#![tactic(auto)]

#[cfg(test)]
mod bytes;
#[cfg(test)]
mod checks;
#[cfg(test)]
mod numbers;
#[cfg(test)]
mod unicode;
