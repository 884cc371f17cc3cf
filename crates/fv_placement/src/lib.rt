//! Computes where the files of a volume can be placed: their first placement, and whether the
//! volume top file prevents every placement. Files are placed in their order, each after an edge.
//! The first edge is passed in, and every other edge is the end of a file, rounded up to a multiple
//! of 8.
#![tactic(auto)]

mod first_placement;
mod reach;
mod usable_start;

pub use first_placement::{PlacementItem, first_starts, is_top_misaligned};
