//! Faults: why an input was rejected, and at which offset.

ghost use Rattle.std.specs.Prelude.{◌≡◌, true, false, OnOk, IfErr};
ghost use Rattle.fv_base.specs.Faults.{fault_number, outer_fault, out_of_memory};

use std::alloc::{AllocError, AllocFailed};
use std::fmt;
use thiserror::Error;

/// Why an input was rejected, or why a run stopped. The comment of each variant gives its
/// condition, then its offset. Here a valid file is a file, or a pad, whose data are valid, marked
/// for update or not.
#[derive(Clone, Copy, Debug, PartialEq, Eq)]
pub enum FaultKind {
    /// There are fewer than 56 bytes, fewer than `HeaderLength` bytes, or fewer than `FvLength`
    /// bytes. At the end of the bytes.
    Truncated,
    /// `Signature`, the four bytes at 40, is not `_FVH` (`EFI_FVH_SIGNATURE`). At 40.
    Signature,
    /// `FileSystemGuid`, at 16, is neither the GUID of FFS2 nor the GUID of FFS3. At 16.
    FileSystem,
    /// `Revision`, the byte at 55, is not 2 (`EFI_FVH_REVISION`). At 55.
    Revision,
    /// `HeaderLength` is not a multiple of 8 from 64 to 2112. At 48.
    HeaderLength,
    /// The 16-bit words of the header, including its `Checksum`, do not sum to 0. At 0.
    HeaderSum,
    /// The first pair of zeros in `BlockMap` is not at `HeaderLength` - 8, or the blocks do not sum
    /// to `FvLength`. At 56.
    BlockMap,
    /// `FvLength` is not a multiple of 8, is less than `HeaderLength` or exceeds the limit (at 32).
    /// Or bytes follow the volume in a call that takes a whole volume (at `FvLength`). Or an input
    /// is longer than the limit (at the limit).
    Length,
    /// The extended header, at `ExtHeaderOffset`, begins before `HeaderLength`, or begins less than
    /// 20 bytes before `FvLength`, or ends after `FvLength`; or `ExtHeaderSize` is less than 20 or
    /// more than 65,535. At 52.
    ExtHeader,
    /// Bit 0x40 or 0x80 of `State` was written, or `verify_ffs_file` was given a file that is not
    /// valid. At the file + 23.
    FileState,
    /// The bytes of a file header, with `IntegrityCheck.Checksum.File` and `State` taken as 0, do
    /// not sum to 0. At the file.
    FileHeaderSum,
    /// `Size` or `ExtendedSize` of a file is less than the length of its header, or reaches past
    /// the end of the volume; or `Size` of a large header is not 0; or the volume ends within the
    /// header. (For `verify_ffs_file` the end of its bytes counts as the volume's end.) At the file
    /// + 20.
    FileSize,
    /// `Attributes` of a file in FFS2 has `FFS_ATTRIB_LARGE_FILE`, bit 0x01. (In a header under
    /// construction, or an invalid header, the bit is allowed.) At the file + 19.
    LargeFile,
    /// The file checksum of a valid file that is not a pad is wrong: with `FFS_ATTRIB_CHECKSUM`,
    /// the data and `IntegrityCheck.Checksum.File` do not sum to 0; without it,
    /// `IntegrityCheck.Checksum.File` is not 0xAA. At the file + 17.
    FileSum,
    /// `Attributes` of a valid file that is not a pad has `FFS_ATTRIB_FIXED`, bit 0x04. At the file
    /// + 19.
    Fixed,
    /// Where a cell would begin, the bytes up to the end of the volume are not all erased, and
    /// either fewer than 24 of them are left or `State` is erased. At the first of these bytes that
    /// is not erased.
    FreeSpace,
    /// Two valid files that are not pads have the same `Name` and the same state. At the later
    /// file.
    DuplicateName,
    /// Among the valid files that are neither pads nor superseded, a file with the `Name`
    /// `EFI_FFS_VOLUME_TOP_FILE_GUID` is not the last file, or does not end at `FvLength`. At the
    /// file.
    TopFile,
    /// `Size` or `ExtendedSize` of a section is less than the length of its header, or reaches past
    /// the end of the stream; or the stream ends within an extended header. At the section header.
    SectionSize,
    /// One to three bytes are left where a section would begin. At the first of them.
    SectionTail,
    /// The content of a group or of an opened volume would be at depth 9. At the section header.
    Depth,
    /// A volume was read, but its files cannot be laid out within its `FvLength` bytes, and
    /// TopAlignment does not apply. At 0, with the depth of that volume.
    NoRoom,
    /// A volume was read, but its volume top file, placed so that it ends at `FvLength`, does not
    /// begin at a multiple of 8, or the file's data are not aligned (`FFS_ATTRIB_DATA_ALIGNMENT`).
    /// At 0, with the depth of that volume.
    TopAlignment,
    /// Memory ran out. At 0.
    OutOfMemory,
    /// The reader failed, or was interrupted too often (at the number of bytes read so far). Or an
    /// input that should be hexadecimal text is not an even number of digits (at 0).
    ReadFault,
    /// The writer failed, or took none of the bytes that it was given. At the number of bytes
    /// written so far.
    WriteFault,
}

impl FaultKind {
    /// Returns the number of the kind, from 1 to 26.
    pub fn number(self) -> u8
        ensures { result ≡ fault_number self }
    {
        match self {
            FaultKind::Truncated => 1,
            FaultKind::Signature => 2,
            FaultKind::FileSystem => 3,
            FaultKind::Revision => 4,
            FaultKind::HeaderLength => 5,
            FaultKind::HeaderSum => 6,
            FaultKind::BlockMap => 7,
            FaultKind::Length => 8,
            FaultKind::ExtHeader => 9,
            FaultKind::FileState => 10,
            FaultKind::FileHeaderSum => 11,
            FaultKind::FileSize => 12,
            FaultKind::LargeFile => 13,
            FaultKind::FileSum => 14,
            FaultKind::Fixed => 15,
            FaultKind::FreeSpace => 16,
            FaultKind::DuplicateName => 17,
            FaultKind::TopFile => 18,
            FaultKind::SectionSize => 19,
            FaultKind::SectionTail => 20,
            FaultKind::Depth => 21,
            FaultKind::NoRoom => 22,
            FaultKind::TopAlignment => 23,
            FaultKind::OutOfMemory => 24,
            FaultKind::ReadFault => 25,
            FaultKind::WriteFault => 26,
        }
    }

    // Returns the meaning of the kind, as `Display` writes it.
    fn text(self) -> &'static str {
        match self {
            FaultKind::Truncated => "the bytes end before the volume does",
            FaultKind::Signature => "no volume begins here: its signature is missing",
            FaultKind::FileSystem => {
                "no volume of files begins here: its file system is neither FFS2 nor FFS3"
            }
            FaultKind::Revision => "the header of a volume is damaged, or its revision is not 2",
            FaultKind::HeaderLength => "the header of a volume is damaged: its length is wrong",
            FaultKind::HeaderSum => "the header of a volume is damaged: its checksum is wrong",
            FaultKind::BlockMap => "the header of a volume is damaged: its block map is wrong",
            FaultKind::Length => {
                "the length in the header is wrong, or bytes follow the volume, \
                or there are more than 256 MiB"
            }
            FaultKind::ExtHeader => "the extended header of a volume is damaged",
            FaultKind::FileState => "the state of a file is invalid",
            FaultKind::FileHeaderSum => "the header of a file is damaged: its checksum is wrong",
            FaultKind::FileSize => "the size of a file is wrong",
            FaultKind::LargeFile => "a file in an FFS2 volume has the large-file attribute",
            FaultKind::FileSum => "the data of a file are damaged: the file checksum is wrong",
            FaultKind::Fixed =>
                "a file is marked fixed, and only volumes whose files may all be moved are read",
            FaultKind::FreeSpace => "the free space of a volume is not erased",
            FaultKind::DuplicateName => "two files in a volume have the same name",
            FaultKind::TopFile => "the volume top file is not at the end of its volume",
            FaultKind::SectionSize => "the size of a section is wrong",
            FaultKind::SectionTail => "one to three bytes are left where a section would begin",
            FaultKind::Depth => "groups and volumes nest deeper than eight levels",
            FaultKind::NoRoom => "the files cannot be laid out within the volume's length",
            FaultKind::TopAlignment => {
                "the volume top file is misaligned when placed at the end of the volume"
            }
            FaultKind::OutOfMemory => "out of memory",
            FaultKind::ReadFault => "the input cannot be read, or is not hexadecimal text",
            FaultKind::WriteFault => "the output cannot be written",
        }
    }
}

impl fmt::Display for FaultKind {
    fn fmt<W: fmt::Write>(&self, f: &mut fmt::Formatter<W>) -> fmt::Result {
        f.write_str(self.text())
    }
}

impl std::error::Error for FaultKind {}

/// Where a fault is.
#[derive(Clone, Copy, Debug, PartialEq, Eq)]
pub struct Place {
    /// The offset in bytes, counted from the first byte that was passed to the call.
    pub offset: u64,
    /// The number of groups and opened volumes that contain this place.
    pub depth: u8,
}

/// Why an input was rejected or why a run stopped, and where.
#[derive(Clone, Copy, Debug, PartialEq, Eq, Error)]
#[error("{kind} (fault {}) at offset {}, depth {}", .kind.number(), .place.offset, .place.depth)]
pub struct Fault {
    /// The kind of the fault.
    pub kind: FaultKind,
    /// The place of the fault.
    pub place: Place,
}

impl Fault {
    /// Returns the fault of this kind at an offset in bytes, at the outermost level (depth 0).
    pub const fn outer(kind: FaultKind, offset: u64) -> Fault
        ensures { result ≡ outer_fault kind offset }
    {
        Fault {
            kind,
            place: Place { offset, depth: 0 },
        }
    }
}

/// Turns the outcome of a check into a result.
///
/// # Errors
///
/// The fault of this kind at this offset, at depth 0, if `holds` is false.
pub fn check(holds: bool, kind: FaultKind, offset: u64) -> Result<(), Fault>
    ensures ok { OnOk result (holds ≡ true) }
    ensures err { IfErr result (λ f. (holds ≡ false) × (f ≡ outer_fault kind offset)) }
{
    if holds {
        Ok(())
    } else {
        Err(Fault::outer(kind, offset))
    }
}

/// A failed allocation becomes OutOfMemory at 0, depth 0.
impl From<AllocError> for Fault {
    ghost from_gives = { λ _ f. f ≡ out_of_memory };

    fn from(_error: AllocError) -> Fault {
        Fault::outer(FaultKind::OutOfMemory, 0)
    }
}

/// A failed allocation becomes OutOfMemory at 0, depth 0.
impl<T: Drop> From<AllocFailed<T>> for Fault {
    ghost from_gives = { λ _ f. f ≡ out_of_memory };

    fn from(_error: AllocFailed<T>) -> Fault {
        Fault::outer(FaultKind::OutOfMemory, 0)
    }
}
