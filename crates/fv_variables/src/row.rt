//! The rows of a reading.

ghost use Rattle.std.specs.Prelude.{◌≡◌, ◌+◌, ◌<◌, length, IfSome, IfNone};
ghost use Rattle.fv_base.specs.Words.{field};
ghost use Rattle.fv_variables.specs.Reading.{finding_number};
ghost use Rattle.fv_variables.specs.Rows.{is_variable};

use crate::format::{StoreHeader, Variable, part_of};
use crate::signatures::ListHeader;
use fv_base::Guid;

/// What a row is about. Every byte is in exactly one row.
#[derive(Clone, Copy, Debug, PartialEq, Eq)]
pub enum Part {
    /// The header of a variable store, of 28 bytes.
    StoreHeader(StoreHeader),
    /// A variable: its header, its name and its data.
    Variable(Variable),
    /// The header of a variable that was never finished.
    Unfinished,
    /// The bytes from the end of a variable to the next multiple of 4.
    Filler,
    /// Erased bytes, which are 0xFF: the rest of a store, or bytes outside of stores.
    Free,
    /// The working block of the fault tolerant write driver: its header, of 32 bytes, and its queue.
    WorkingBlock,
    /// The header of a signature list, of 28 bytes, and the SignatureHeader after it.
    ListHeader(ListHeader),
    /// A signature of a list: SignatureOwner, of 16 bytes, which is here, and SignatureData.
    Signature(Guid),
    /// Bytes that cannot be read, for the reason that the finding gives.
    Unread,
}

/// Why some bytes are not read, or what is wrong with a header.
#[derive(Clone, Copy, Debug, PartialEq, Eq)]
pub enum Finding {
    /// Size of the header of a store, at the row + 16, is below 28 or above the number of bytes that
    /// are left. The store is read up to the end of the bytes.
    StoreSize,
    /// Format of the header of a store, at the row + 20, is not 0x5A, or State, at the row + 21, is
    /// not 0xFE. EDK II does not use such a store.
    StoreState,
    /// The rest of a store does not begin with StartId, and is not erased.
    StartId,
    /// The rest of a store begins with StartId, but has no room for the header of a variable, or for
    /// a variable of the sizes in the header.
    VariableSize,
    /// WriteQueueSize of a working block, at the row + 24, is above the number of bytes that are
    /// left. The block is read up to the end of the bytes.
    QueueSize,
    /// The bytes are outside of stores, and are not erased.
    NoStore,
    /// There is no room for the header of a signature list; or SignatureListSize, at the row + 16, is
    /// above the number of bytes that are left, or has no room for the header and SignatureHeader; or
    /// SignatureSize, at the row + 24, is below 16. No further lists are read.
    ListSize,
    /// The rest of a signature list has fewer bytes than SignatureSize.
    SignatureSize,
}

impl Finding {
    /// Returns the number of this finding: 1 to 8, in the order of the variants.
    pub fn number(self) -> u8
        ensures { result ≡ finding_number self }
    {
        match self {
            Finding::StoreSize => 1,
            Finding::StoreState => 2,
            Finding::StartId => 3,
            Finding::VariableSize => 4,
            Finding::QueueSize => 5,
            Finding::NoStore => 6,
            Finding::ListSize => 7,
            Finding::SignatureSize => 8,
        }
    }
}

/// A row of a reading.
#[derive(Clone, Copy, Debug, PartialEq, Eq)]
pub struct Row {
    /// What the row is about.
    pub part: Part,
    /// The finding of the row, or None if nothing is wrong.
    pub finding: Option<Finding>,
    /// The offset in bytes from the first byte.
    pub offset: u64,
    /// The length in bytes.
    pub length: u64,
}

impl Row {
    /// Returns the bytes of the row. `bytes` are the bytes that were read; the result is None if they
    /// do not reach to the end of the row.
    pub fn bytes(self, bytes: &[u8]) -> Option<&[u8]>
        ensures some { IfSome result (λ part. part.now ≡ field self.offset self.length bytes.now) }
        ensures none { IfNone result (length bytes.now < self.offset + self.length) }
    {
        part_of(bytes, self.offset as usize, self.length as usize)
    }

    // Returns whether the row is a variable.
    pub(crate) fn is_variable(&self) -> bool
        ensures { result ≡ is_variable self.now }
    {
        matches!(self.part, Part::Variable(_))
    }
}
