//! Taking the marks of fixed files away at every depth of a volume, or of a stream of sections, so
//! that the readers of fv_tree do not reject it because of them. The calls of the module
//! `further_laws` do nothing: their contracts are laws over the definitions.
#![tactic(auto)]

mod copy;
pub mod further_laws;
mod own_marks;
mod section;
mod tree_marks;

pub use copy::{sections_without_marks, without_marks};
pub use tree_marks::{take_marks, take_marks_of_sections};
