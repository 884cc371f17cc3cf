//! The meaning of a firmware volume, read as a view of its bytes. `scan`, `volumes`, `Offsets` and
//! `FoundVolume` come from fv_flash. Only `read_volume`, `whole_volume`, `whole_volume_with_files`,
//! `whole_stream`, `located_files`, `volume_cells`, `first_difference`, `scan` and `volumes` take
//! memory.
//!
//! A view does not store sections: `Sections` and `SectionWalk` read them from the input each time
//! they are walked. If the body of a section is a volume, the view of this volume is stored.
//!
//! `plain` and `leaf` return slices of the input, and `Content::Plain` and `Body::Leaf` hold them.
//! These slices outlive the view. So a program that uses one after the view is gone compiles, but a
//! program that uses one after the input is gone does not.
#![tactic(auto)]

mod difference;
mod fault_place;
mod fixed_marks;
pub mod further_laws;
mod head_difference;
mod lookup;
mod read;
mod section_walk;
mod shape;
mod stored_files;
mod stream_view;
mod view;
mod volume_files;

pub use difference::{Difference, DifferenceKind, Step, first_difference};
pub use fault_place::fault_within;
pub use fixed_marks::{unfix, verify_unfixed};
pub use fv_flash::{FoundVolume, Offsets, scan, volumes};
pub use lookup::{Item, Lookup, file_by_name, file_by_type, next_file, section_by_type};
pub use read::{read_volume, volume_cells, whole_volume, whole_volume_with_files};
pub use section_walk::SectionWalk;
pub use shape::{Shape, holds_sections, shape_of};
pub use stored_files::located_files;
pub use stream_view::{StreamView, whole_stream};
pub use view::{Body, Content, FileView, SectionView, Sections, VolumeView};
pub use volume_files::{LocatedFile, VOLUME_TOP_FILE};
