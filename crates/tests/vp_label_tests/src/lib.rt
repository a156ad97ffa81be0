//! Labels by their parts, each through its public calls: what is read, stored, painted, settled, closed and
//! put out.
#![tactic(auto)]

#[cfg(test)]
mod bands;
#[cfg(test)]
mod checks;
#[cfg(test)]
mod closing;
#[cfg(test)]
mod copies;
#[cfg(test)]
mod field;
#[cfg(test)]
mod format;
#[cfg(test)]
mod label;
#[cfg(test)]
mod label_settings;
#[cfg(test)]
mod sheets;
#[cfg(test)]
mod zpl;
