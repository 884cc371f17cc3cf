//! Dependency expressions, which are the bodies of depex sections: reading, writing and evaluating
//! them. (PI specification, volume 1, section 5.7, and volume 2, section 10.7.)
#![tactic(auto)]

mod depex;
mod fault;
pub mod further_laws;
mod op;
mod op_stage;
mod opcode;
mod read;
mod truth;
pub mod worked_readings;
mod write;

pub use depex::Depex;
pub use fault::{DepexFault, DepexFaultKind};
pub use op::{Op, Phase};
pub use read::{depex_fault, read_depex};
pub use truth::evaluate;
pub use write::depex_bytes;
