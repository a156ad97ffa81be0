//! Whole streams through the printer and its listings: what they print in one piece, cut at both ends,
//! and between readers and writers that give and take a few bytes at a time and fail once. Images that are
//! joined, between such readers and writers.
#![tactic(auto)]

#[cfg(test)]
mod anew;
#[cfg(test)]
mod cases;
#[cfg(test)]
mod checks;
#[cfg(test)]
mod fields;
#[cfg(test)]
mod held;
#[cfg(test)]
mod joining;
#[cfg(test)]
mod labels;
#[cfg(test)]
mod listings;
#[cfg(test)]
mod looks;
#[cfg(test)]
mod pages;
#[cfg(test)]
mod pictures;
#[cfg(test)]
mod pieces;
#[cfg(test)]
mod sessions;
#[cfg(test)]
mod sheet;
#[cfg(test)]
mod streams;
#[cfg(test)]
mod symbols;
#[cfg(test)]
mod tests;
#[cfg(test)]
mod ways;
#[cfg(test)]
mod whole;
