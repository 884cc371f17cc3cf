//! A walk over the parts of a volume: the volume, its files and sections, and nested volumes. A
//! type that computes the digest of each part implements the trait `Digests`.
#![tactic(auto)]

mod digests;
mod tree_walk;

pub use digests::Digests;
pub use tree_walk::{Part, Parts, Row, TreeWalk, known, next_part, parts_in};
