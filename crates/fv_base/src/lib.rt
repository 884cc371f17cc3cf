//! The basis of all other crates: GUIDs, sums, alignments, faults, limits, ports, inputs and sinks.
#![tactic(auto)]

mod align;
mod byte_list;
mod erased;
mod fault;
pub mod field;
mod flash;
mod guid;
mod input;
pub mod limits;
mod port;
mod sink;
mod sums;

pub use align::Align;
pub use byte_list::ByteList;
pub use erased::all_are;
pub use fault::{Fault, FaultKind, Place, check};
pub use flash::{FileSystem, Polarity};
pub use guid::{Guid, guid_at};
pub use input::{Collector, read_input, read_to_end};
pub use port::Port;
pub use sink::{ListSink, Sink, WriteSink, fill};
pub use sums::{sum8, sum16};
