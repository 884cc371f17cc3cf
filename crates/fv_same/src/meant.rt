//! What a row is for the rows in it, and whether it counts.

use fv_base::Polarity;

/// What a row is for the rows in it.
#[derive(Clone, Copy)]
pub(crate) enum Around {
    /// The rows in it are outside of the meaning.
    Outside,
    /// A part says the bytes of the row, or contents do.
    Covered,
    /// A volume: its offset in the source, and its erase polarity.
    Volume(u64, Polarity),
    /// A variable store.
    Store,
    /// A file: the offset of its header in the source, and the size.
    File(u64, u64),
    /// A section.
    Section,
    /// Lost bytes.
    Lost,
}

/// What becomes of a row.
#[derive(Clone, Copy)]
pub(crate) enum Role {
    /// Neither the row nor the rows in it count.
    Out,
    /// The rows in it say what it means.
    Through(Around),
    /// The row is a part, which says its bytes.
    Whole,
    /// The row is a packed section. If it is opened, its contents say what it means.
    Packed,
}
