//! The extraction of a part from a volume: the data of a file, or the body of one of its sections.
//! `put_opened_part` looks for the file in packed sections too.
#![tactic(auto)]

mod extracting;
pub mod further_laws;
mod opened_search;
mod outcome;
mod progress;

pub use extracting::{Extraction, extract};
pub use opened_search::{Search, put_opened_part};
pub use outcome::{Outcome, put_extraction};
