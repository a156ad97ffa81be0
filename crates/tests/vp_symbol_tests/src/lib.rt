//! Symbols, their check codewords and shapes against outside vectors: the standards' worked examples, and values
//! that were found apart from this code.
#![tactic(auto)]

#[cfg(test)]
mod aztec;
#[cfg(test)]
mod codewords;
#[cfg(test)]
mod data_matrix;
#[cfg(test)]
mod matrix;
#[cfg(test)]
mod maxicode;
#[cfg(test)]
mod pdf417;
#[cfg(test)]
mod shapes;
