//! The lines of `scan`, `hobs`, `cells`, `list` and `check`, which are put into a sink.
//!
//! `.._text` modules put the lines of a command, and `depex_notes` puts the notes of `check` on
//! dependency expressions. `put_cells` also reads the cells that it shows.
#![tactic(auto)]

mod cell_text;
mod check_text;
mod depex_notes;
mod digest_text;
pub mod further_laws;
mod hob_text;
mod leaf_text;
mod list_text;
mod scan_text;

pub use cell_text::put_cells;
pub use check_text::{put_pad_notes, put_verdict};
pub use depex_notes::{DepexNote, put_depex_notes};
pub use hob_text::{MappedImage, SpanContent, put_hobs, span_content};
pub use list_text::{put_list, put_list_with, put_row, put_section_start};
pub use scan_text::{put_volume_place, put_volumes};
