//! Tests alone: bands, stores, a page and printers over a heap of just as many bytes as they hold, so that
//! nothing more can be taken: all that is done with them is done in what `new` took, and they give it back.
#![tactic(auto)]

#[cfg(test)]
mod printers;
#[cfg(test)]
mod tests;
