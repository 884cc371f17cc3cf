//! The lines of `list --open`: the tree of a volume, through its packed sections.
#![tactic(auto)]

pub mod further_laws;
mod opened_list;
mod packed_text;
pub mod worked_lists;

pub use opened_list::put_opened_list;
pub use packed_text::{put_spent, put_too_deep, put_unopened, put_way};
