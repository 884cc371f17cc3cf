//! Compares two firmware volumes: by a line that shows where they first differ, and by a run that
//! reads two inputs. The first difference as a value is `first_difference` of fv_tree. All calls
//! take memory.
#![tactic(auto)]

mod compare;
mod comparison_line;
mod side;

pub use compare::{put_comparison, run_compare, write_comparison};
pub use side::Side;
