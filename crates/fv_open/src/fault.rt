//! The reasons why a section is not opened.

ghost use Rattle.std.specs.Prelude.{◌≡◌};
ghost use Rattle.fv_open.specs.OpenFaults.{open_fault, open_fault_number};

use fv_packed::PackedFaultKind;
use thiserror::Error;

/// The reason why a section was not opened. The comment of each variant gives the condition and then
/// the offset of the fault, in bytes from the first byte of the section. (PI specification, volume 3,
/// sections 3.2.4, 3.2.5.2 and 3.2.5.7.)
#[derive(Clone, Copy, Debug, PartialEq, Eq, Error)]
pub enum OpenFaultKind {
    /// The bytes do not begin with a whole section (offset 0). Or the section ends before the fields
    /// that its type needs (at its end). Or DataOffset points into these fields, or past the end of
    /// the section (at DataOffset).
    #[error("the section is cut short")]
    Short,
    /// The type of the section, its CompressionType or its GUID names no way that is known. The
    /// offset points to this field.
    #[error("the way to open the section is not known")]
    UnknownWay,
    /// The packed data are damaged, for the reason that the decoder gives. The offset points to the
    /// byte at which the decoder stopped.
    #[error("the packed data are damaged: {0}")]
    Damaged(PackedFaultKind),
    /// The CRC32 of the contents is not the one that the section stores. The offset points to the
    /// stored one.
    #[error("the CRC32 of the contents is wrong")]
    Sum,
    /// The contents are longer than the limit of the call. The offset points to the contents if they
    /// are stored as they are, and otherwise to the byte at which the decoder stopped.
    #[error("the contents are longer than the limit")]
    TooLong,
    /// Memory ran out. The offset is 0.
    #[error("out of memory")]
    OutOfMemory,
}

impl OpenFaultKind {
    /// Returns the number of this kind of fault: 1 to 6, in the order of the variants.
    pub fn number(self) -> u8
        ensures { result ≡ open_fault_number self }
    {
        match self {
            OpenFaultKind::Short => 1,
            OpenFaultKind::UnknownWay => 2,
            OpenFaultKind::Damaged(_) => 3,
            OpenFaultKind::Sum => 4,
            OpenFaultKind::TooLong => 5,
            OpenFaultKind::OutOfMemory => 6,
        }
    }
}

/// Why a section was not opened, and where.
#[derive(Clone, Copy, Debug, PartialEq, Eq, Error)]
#[error("{kind} (section fault {}) at offset {offset}", .kind.number())]
pub struct OpenFault {
    /// The kind of the fault.
    pub kind: OpenFaultKind,
    /// The offset of the fault, in bytes from the first byte of the section. For OutOfMemory it is 0.
    pub offset: u64,
}

impl OpenFault {
    /// Returns the number of the fault's kind, 1 to 6.
    pub fn number(self) -> u8
        ensures { result ≡ open_fault_number self.kind }
    {
        self.kind.number()
    }

    // Returns the fault of this kind at this offset.
    pub(crate) fn at(kind: OpenFaultKind, offset: usize) -> OpenFault
        ensures { result ≡ open_fault kind offset }
    {
        OpenFault {
            kind,
            offset: offset as u64,
        }
    }
}
