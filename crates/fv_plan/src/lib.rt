//! The plan of a run, which a command line asks for: a command, its input files and its options.
#![tactic(auto)]

mod plan;

pub use plan::{Command, ImageFile, Part, Plan, Task, VolumeFile};
