//! The file systems of volumes.

ghost use Rattle.std.specs.Prelude.{◌≡◌};
ghost use Rattle.fv_survey.specs.Systems.{files_by, is_allowed, is_known, is_vendors};

use fv_base::{FileSystem, Guid};

// What the files of a volume look like.
#[derive(Clone, Copy, Debug, PartialEq, Eq)]
pub(crate) enum Files {
    // Files of FFS2, or of a vendor's file system that is read as FFS2.
    Ffs2,
    // Files of FFS3.
    Ffs3,
    // Files of FFS1, with a tail of 2 bytes if attribute 0x01 is set.
    Ffs1,
    // Variables: there are no files.
    Store,
    // Not known.
    Unknown,
}

impl Files {
    // Returns the file system that the strict reader would read the files by.
    pub(crate) fn system(self) -> FileSystem {
        match self {
            Files::Ffs3 => FileSystem::Ffs3,
            Files::Ffs2 | Files::Ffs1 | Files::Store | Files::Unknown => FileSystem::Ffs2,
        }
    }

    // Returns whether the survey knows the file system.
    pub(crate) fn is_known(self) -> bool
        ensures { result ≡ is_known self }
    {
        !matches!(self, Files::Unknown)
    }
}

const FFS1: [u8; 16] = [
    0xd9, 0x54, 0x93, 0x7a, 0x68, 0x04, 0x4a, 0x44, 0x81, 0xce, 0x0b, 0xf6, 0x17, 0xd8, 0x90, 0xdf,
];

const FFS2: [u8; 16] = [
    0x78, 0xe5, 0x8c, 0x8c, 0x3d, 0x8a, 0x1c, 0x4f, 0x99, 0x35, 0x89, 0x61, 0x85, 0xc3, 0x2d, 0xd3,
];

const FFS3: [u8; 16] = [
    0x7a, 0xc0, 0x73, 0x54, 0xcb, 0x3d, 0xca, 0x4d, 0xbd, 0x6f, 0x1e, 0x96, 0x89, 0xe7, 0x34, 0x9a,
];

const APPLE_BOOT: [u8; 16] = [
    0xad, 0xee, 0xad, 0x04, 0xff, 0x61, 0x31, 0x4d, 0xb6, 0xba, 0x64, 0xf8, 0xbf, 0x90, 0x1f, 0x5a,
];

const APPLE_SECOND: [u8; 16] = [
    0x8c, 0x1b, 0x00, 0xbd, 0x71, 0x6a, 0x7b, 0x48, 0xa1, 0x4f, 0x0c, 0x2a, 0x2d, 0xcf, 0x7a, 0x5d,
];

const INTEL_FIRST: [u8; 16] = [
    0xff, 0xff, 0x3f, 0xad, 0x8b, 0xd2, 0xc4, 0x44, 0x9f, 0x13, 0x9e, 0xa9, 0x8a, 0x97, 0xf9, 0xf0,
];

const INTEL_SECOND: [u8; 16] = [
    0x70, 0xcd, 0xa1, 0xd6, 0x33, 0x4b, 0x94, 0x49, 0xa6, 0xea, 0x37, 0x5f, 0x2c, 0xcc, 0x54, 0x37,
];

const SONY: [u8; 16] = [
    0x56, 0x41, 0x49, 0x4f, 0xd6, 0xae, 0x64, 0x4d, 0xa5, 0x37, 0xb8, 0xa5, 0x55, 0x7b, 0xce, 0xec,
];

const VARIABLES: [u8; 16] = [
    0x8d, 0x2b, 0xf1, 0xff, 0x96, 0x76, 0x8b, 0x4c, 0xa9, 0x85, 0x27, 0x47, 0x07, 0x5b, 0x4f, 0x50,
];

// Returns whether the bytes are the GUID of a vendor's file system that is read as FFS2.
pub(crate) fn is_vendors(bytes: &[u8]) -> bool
    ensures { result ≡ is_vendors bytes.now }
{
    bytes == &APPLE_BOOT[..]
        || bytes == &APPLE_SECOND[..]
        || bytes == &INTEL_FIRST[..]
        || bytes == &INTEL_SECOND[..]
        || bytes == &SONY[..]
}

// Returns what the files of a volume with this FileSystemGuid look like.
pub(crate) fn files_of(bytes: &[u8]) -> Files
    ensures { result ≡ files_by bytes.now }
{
    if bytes == &FFS2[..] {
        Files::Ffs2
    } else if bytes == &FFS3[..] {
        Files::Ffs3
    } else if bytes == &FFS1[..] {
        Files::Ffs1
    } else if bytes == &VARIABLES[..] {
        Files::Store
    } else if is_vendors(bytes) {
        Files::Ffs2
    } else {
        Files::Unknown
    }
}

// Returns whether the bytes are the GUID of FFS2, of FFS3 or of a variable store, by which a volume
// breaks no rule.
pub(crate) fn is_allowed(bytes: &[u8]) -> bool
    ensures { result ≡ is_allowed bytes.now }
{
    bytes == &FFS2[..] || bytes == &FFS3[..] || bytes == &VARIABLES[..]
}
