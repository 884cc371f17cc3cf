//! All levels of an image: the image, the contents of the packed sections in it, the contents of
//! the packed sections in these contents, and so on. Each of them is a source, whose bytes can be
//! surveyed. Only `open_all` allocates memory. The calls of the module `further_laws` do nothing:
//! their contracts are laws over the definitions.
#![tactic(auto)]

mod attempt;
pub mod further_laws;
mod levels;
mod opened;
mod opening;
mod packed;
mod place;
#[cfg(test)]
mod tests;

pub use levels::{Levels, Source};
pub use opening::open_all;
pub use place::{Closed, Origin, PackedPlace, Reason};
