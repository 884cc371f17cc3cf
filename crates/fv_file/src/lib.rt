//! The files of a firmware volume: their states, their headers, and the cells that tile a volume's
//! body.
#![tactic(auto)]

mod attributes;
mod cell;
mod cell_list;
mod cell_walk;
pub mod file_type;
mod first_file;
pub mod further_laws;
mod head;
mod leading;
mod new_header;
pub mod offsets;
mod state;
mod unmark;
mod unmark_check;

pub use attributes::FileAttributes;
pub use cell::Cell;
pub use cell_list::Cells;
pub use cell_walk::{CellWalk, cells, span_of};
pub use first_file::verify_ffs_file;
pub use head::{FIXED_CHECKSUM, FileHead};
pub use new_header::{
    HeadBytes, NEW_STATE_ON_ONES, NEW_STATE_ON_ZEROS, file_head_bytes, pad_head_bytes,
};
pub use state::{FileState, file_state};
pub use unmark::unmark_files;
pub use unmark_check::verify_unmarked;
