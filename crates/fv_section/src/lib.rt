//! The sections of a file: their frames in a stream, their headers, and the inner formats of three
//! leaf types.
#![tactic(auto)]

mod frame;
mod frame_list;
mod frame_walk;
pub mod further_laws;
pub mod offsets;
mod section_head;
pub mod section_type;
mod texts;

pub use frame::{Frame, next_frame, section_header_len, split_frame};
pub use frame_list::Frames;
pub use frame_walk::{FrameWalk, frames};
pub use section_head::{SectionHead, section_head_bytes};
pub use texts::{freeform, ui_text, version};
