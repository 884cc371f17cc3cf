//! The text of `survey --open`: the text of `survey`, and then the lines of the contents of packed
//! sections at every level.
#![tactic(auto)]

mod closed_text;
pub mod further_laws;
mod level_text;
mod source_text;

pub use level_text::put_levels;
