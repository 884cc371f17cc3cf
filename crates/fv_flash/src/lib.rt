//! Finding firmware volumes in some bytes. Only `volumes` and `scan` allocate memory.
#![tactic(auto)]

pub mod further_laws;
mod scanner;

pub use scanner::{FoundVolume, Offsets, scan, volumes};
