//! Hand-off block (HOB) lists: reading them, writing them, and finding the volumes that they
//! describe. (PI specification, volume 3, section 5.)
#![tactic(auto)]

mod block_kinds;
mod fault;
pub mod further_laws;
mod hob;
mod hob_list;
mod hob_type;
mod offsets;
mod read;
mod span;
pub mod worked_readings;
mod write;

pub use fault::{HobFault, HobFaultKind};
pub use hob::{Handoff, Hob, HobKind, MemoryAllocation, Resource};
pub use hob_list::HobList;
pub use read::read_hobs;
pub use span::{Span, Spans, volume_hobs};
pub use write::hob_bytes;
