//! Checks, reads and writes the header of a firmware volume, including its extended header.
#![tactic(auto)]

mod attributes;
mod block_map;
mod ext;
mod ext_image;
mod extent;
pub mod further_laws;
mod head;
mod head_image;
mod header_checks;
mod offsets;
mod write;

pub use attributes::FvAttributes;
pub use block_map::BlockMap;
pub use ext::{ExtEntry, ExtHeader};
pub use ext_image::{ext_bytes, len_of_ext, put_ext};
pub use extent::Extent;
pub use head::{VolumeHead, read_head};
pub use head_image::{first_edge, head_bytes, put_head};
pub use header_checks::{SIGNATURE, checked_extent, is_one_volume, verify_fv};
pub use write::{write_ext, write_head};
