//! Where a packed section is, and why it is not opened.

use fv_open::{OpenFault, Way};

/// Where a packed section is: a compression section or a GUID-defined section. (PI specification,
/// volume 3, sections 3.2.5.2 and 3.2.5.7.)
#[derive(Clone, Copy, Debug, PartialEq, Eq)]
pub struct PackedPlace {
    /// The number of the source that the section is in. The image is source 0.
    pub source: usize,
    /// The number of opened sections around the section: at most 8.
    pub depth: usize,
    /// The offset of the section's header, in bytes from the first byte of the source.
    pub offset: u64,
    /// The length of the section in bytes, with its header.
    pub length: u64,
}

/// The section that a source is the contents of.
#[derive(Clone, Copy, Debug, PartialEq, Eq)]
pub struct Origin {
    /// Where the section is.
    pub place: PackedPlace,
    /// The way that gave the contents.
    pub way: Way,
}

/// Why a packed section is not opened.
#[derive(Clone, Copy, Debug, PartialEq, Eq)]
pub enum Reason {
    /// The section has this fault. The kind is never OutOfMemory.
    Fault(OpenFault),
    /// There are 8 opened sections around the section.
    TooDeep,
    /// Nothing is left of the budget.
    Spent,
}

/// A packed section that is not opened.
#[derive(Clone, Copy, Debug, PartialEq, Eq)]
pub struct Closed {
    /// Where the section is.
    pub place: PackedPlace,
    /// Why it is not opened.
    pub reason: Reason,
}
