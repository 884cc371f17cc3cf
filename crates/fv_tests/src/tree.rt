//! Tests of fv_tree: look-ups, the slices that a view lends, and volumes whose fixed files lose
//! their marks.

mod lookups;
mod marks;
mod views;

use fv_base::Fault;
use fv_tree::{VolumeView, read_volume};
use std::alloc::Global;

// Returns the volume that is read from the bytes.
fn view_of(alloc: Global, bytes: &[u8]) -> Result<VolumeView<'_>, Fault> {
    let (view, _) = read_volume(alloc, bytes)?;
    Ok(view)
}
