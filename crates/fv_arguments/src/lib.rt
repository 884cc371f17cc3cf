//! Reads the arguments of a command line into a plan.
#![tactic(auto)]

mod options;
mod rejected;
mod rules;
mod words;

pub use rejected::what_is_wrong;
pub use words::{WordFault, parse_words};
