//! Computes the canonical image of a firmware volume and its layout, which says where the files of
//! the image begin. The crate does the same for each volume of a flash image, and writes images to
//! a port. `whole_volume` comes from fv_tree, and `run_compare` and `Side` from fv_compare. The
//! calls of the modules `headline`, `further_laws` and `worked_readings` do nothing: their contracts
//! are laws, among them the headline, and worked readings of small inputs.
#![tactic(auto)]

mod canonical_image;
mod canonical_input;
mod data_body;
mod flash_image;
pub mod further_laws;
pub mod headline;
mod image_check;
mod image_digests;
mod image_walk;
mod laid_stream;
mod laid_volume;
mod layout_walk;
mod normalising;
mod pads_and_headers;
mod parts;
mod summing_sink;
pub mod worked_readings;

pub use canonical_image::{canonical, put_canonical, write_canonical};
pub use canonical_input::{is_canonical, is_canonical_image};
pub use flash_image::{LaidImage, lay_out_image, normalise_image, put_laid_image};
pub use fv_compare::{Side, run_compare};
pub use fv_tree::whole_volume;
pub use image_check::{VolumeCheck, VolumeOutcome, check_image};
pub use image_digests::ImageDigests;
pub use laid_stream::lay_out_stream;
pub use laid_volume::{LaidVolume, Layout, lay_out_volume};
pub use layout_walk::layout;
pub use normalising::{normalise, run_normalise};
pub use parts::{
    body_bytes, file_bytes, lay_out_body, lay_out_data, put_laid_body, put_laid_data,
    put_laid_volume,
};
