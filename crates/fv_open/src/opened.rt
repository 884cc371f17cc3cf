//! The contents of a section.

use crate::way::Way;
use std::borrow::CowSlice;

/// The contents of a section, and the way that gave them.
#[derive(Drop)]
pub struct Opened<'a> {
    /// The way: never `Standard` or `Customized`, but the one that gave the contents.
    pub way: Way,
    /// The contents: part of the section if they are stored as they are, and otherwise decoded.
    pub contents: CowSlice<'a, u8>,
}
