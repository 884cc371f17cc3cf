//! Sections whose contents are packed: compression sections and GUID-defined sections, from the bytes
//! of a section to its contents.
#![tactic(auto)]

mod encapsulation;
mod fault;
mod frames;
pub mod further_laws;
mod offsets;
mod opened;
mod opening;
mod sections;
mod unpack;
mod way;
pub mod worked_sections;

pub use encapsulation::{Encapsulation, way_of};
pub use fault::{OpenFault, OpenFaultKind};
pub use frames::open_frame;
pub use opened::Opened;
pub use opening::open;
pub use way::Way;
