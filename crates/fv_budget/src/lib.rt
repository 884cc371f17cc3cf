//! What every walk through packed sections needs: which sections are packed, and the budget that
//! limits how much such a walk opens.
#![tactic(auto)]

mod budget;
mod packed;

pub use budget::{Budget, NESTING_LIMIT, ran_out_opening, ran_out_reading};
pub use packed::packed_frame;
