//! Whether two images mean the same at every level: whatever their places, their pads and the packing
//! of their sections are. Each image is read as a list of parts, over the sources of `fv_levels`.
#![tactic(auto)]

mod bytes;
mod difference;
pub mod further_laws;
mod meant;
mod outside;
mod part;
mod part_walk;
mod reader;
mod role;
mod superseded;
#[cfg(test)]
mod tests;
mod walk;

pub use difference::{Difference, first_difference};
pub use outside::outside_difference;
pub use part::PartPlace;
