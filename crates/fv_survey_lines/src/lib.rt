//! The text of `survey`: a line for each row of the survey of an image, and a last line that
//! accounts for all bytes by kind.
#![tactic(auto)]

pub mod further_laws;
mod row_text;
mod survey_text;
mod totals;

pub use survey_text::{put_rows, put_survey};
