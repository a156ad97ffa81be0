//! What is painted, through the public calls of the crates below: dots, characters, bar codes, QR symbols,
//! the page, files of PNG, and packed bytes, by outside vectors and by plain bodies that paint dot by dot.
#![tactic(auto)]

#[cfg(test)]
mod bars;
#[cfg(test)]
mod checks;
#[cfg(test)]
mod dots;
#[cfg(test)]
mod elements;
#[cfg(test)]
mod escapes;
#[cfg(test)]
mod glyph;
#[cfg(test)]
mod inflate;
#[cfg(test)]
mod linear;
#[cfg(test)]
mod page;
#[cfg(test)]
mod png;
#[cfg(test)]
mod qr;
#[cfg(test)]
mod qr_field;
#[cfg(test)]
mod sheet;
