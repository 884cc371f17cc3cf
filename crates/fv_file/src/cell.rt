//! The cells of a volume's body.

use crate::head::FileHead;
use crate::state::FileState;

/// A cell, which is a part of a volume's body. Offsets are in bytes from the volume's start. (PI
/// specification, volume 3, sections 3.2.2 and 3.2.3.)
#[derive(Clone, Copy)]
pub enum Cell<'a> {
    /// A valid file that is not a pad, whether it is marked for update
    /// (`EFI_FILE_MARKED_FOR_UPDATE`) or not.
    Valid {
        /// The offset of its header.
        offset: u64,
        /// Its header.
        head: FileHead,
        /// Its data, which follow the header.
        payload: &'a [u8],
    },
    /// A pad file (`EFI_FV_FILETYPE_FFS_PAD`) whose data are valid, whether it is marked for update
    /// or not. Any other pad file with a valid header, such as a deleted pad file, is a dead cell.
    Pad {
        /// The offset of its header.
        offset: u64,
        /// Its header.
        head: FileHead,
        /// Its data, which follow the header.
        payload: &'a [u8],
    },
    /// A deleted file (`EFI_FILE_DELETED`), or a file with a valid header whose data are not valid
    /// (`EFI_FILE_HEADER_VALID`).
    Dead {
        /// The offset of its header.
        offset: u64,
        /// Its length in bytes, including its filler.
        len: u64,
        /// Its state, HeaderValid or Deleted.
        state: FileState,
    },
    /// A header under construction (`EFI_FILE_HEADER_CONSTRUCTION`), or an invalid header
    /// (`EFI_FILE_HEADER_INVALID`).
    Stub {
        /// Its offset.
        offset: u64,
        /// Its length in bytes, 24 or 32.
        len: u64,
    },
    /// Erased bytes up to the volume's end.
    Free {
        /// The offset of the first of them.
        offset: u64,
        /// The number of these bytes, at least 1.
        len: u64,
    },
}
