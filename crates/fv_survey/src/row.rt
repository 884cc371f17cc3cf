//! The rows of a survey.

ghost use Rattle.std.specs.Prelude.{◌≡◌};
ghost use Rattle.fv_survey.specs.Tiling.{is_leaf};

use crate::findings::Findings;
use fv_base::Guid;

/// What a row is about. The rows of the first four kinds contain other rows. All other rows are
/// leaf rows, and every byte of the image is in exactly one leaf row.
#[derive(Clone, Copy, Debug, PartialEq, Eq)]
pub enum RowKind {
    /// A volume.
    Volume,
    /// A file, a pad or a deleted file, with the filler after it.
    File,
    /// A section.
    Section,
    /// Bytes that should be a part of a volume and cannot be read as one, with the volumes that are
    /// found among them.
    Lost,
    /// The header of a volume, with its block map.
    VolumeHeader,
    /// The extended header of a volume.
    ExtHeader,
    /// The header of a file.
    FileHeader,
    /// The header of a section.
    SectionHeader,
    /// Data of a file that are not read as sections.
    Data,
    /// The body of a section that is not opened.
    Body,
    /// The body of a compressed or GUID-defined section, which is not opened here.
    Packed,
    /// The erased bytes of a pad.
    Pad,
    /// The bytes of a pad that is not erased.
    PadData,
    /// The data of a file that was deleted or never finished.
    Dead,
    /// A header that was never finished.
    Stub,
    /// Erased bytes where a file would begin.
    Free,
    /// Bytes between two parts that no part includes.
    Filler,
    /// Bytes between the header of a volume and its extended header.
    Between,
    /// Bytes outside of volumes.
    Gap,
    /// The contents of a volume with a file system that holds no files, such as a variable store.
    Store,
    /// Bytes that should be a part of a volume and cannot be read.
    Unread,
}

impl RowKind {
    /// Returns whether rows of this kind are leaf rows: they contain no other rows.
    pub fn is_leaf(self) -> bool
        ensures { result ≡ is_leaf self }
    {
        !matches!(
            self,
            RowKind::Volume | RowKind::File | RowKind::Section | RowKind::Lost
        )
    }
}

/// A row of a survey.
#[derive(Clone, Copy, Debug, PartialEq, Eq)]
pub struct Row {
    /// What the row is about.
    pub kind: RowKind,
    /// The number of rows around this row.
    pub depth: u16,
    /// The type of a file or a section, otherwise 0.
    pub code: u8,
    /// Whether the row is a volume that was found by its signature rather than by the structure
    /// around it.
    pub found: bool,
    /// The rules of the strict reader that the bytes break.
    pub findings: Findings,
    /// The offset in bytes from the start of the image.
    pub offset: u64,
    /// The length in bytes.
    pub length: u64,
    /// The name of a file, or the file system of a volume; otherwise zeros.
    pub name: Guid,
}
