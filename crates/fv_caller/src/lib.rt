//! An example of a library on top of the crates, which `docs/LIBRARY.md` explains: an archive that
//! keeps volumes in canonical form, and a check of the inputs that a boot reads. Nothing in this
//! repository uses it.
#![tactic(auto)]

mod archive;
mod boot;
mod fault;

pub use archive::{Archived, archive_volume};
pub use boot::check_boot;
pub use fault::CallerFault;
