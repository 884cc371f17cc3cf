//! A tolerant reading of an image: an account of each byte. The firmware volumes are read as far as
//! they can be, with a finding wherever the strict reader rejects them, and all bytes around them
//! are accounted for. Only a walk and `survey` allocate memory. The calls of the module
//! `further_laws` do nothing: their contracts are laws over the definitions.
#![tactic(auto)]

mod file_step;
mod findings;
pub mod further_laws;
mod header;
mod names;
mod parts;
mod pieces;
mod portion;
mod row;
mod section_step;
mod systems;
mod volume_step;
mod walk;

pub use findings::Findings;
pub use row::{Row, RowKind};
pub use walk::{SurveyRows, SurveyWalk, survey};
