//! The attribute bits of a file.

ghost use Rattle.std.specs.Prelude.{⊤, ◌≡◌, [], ◌∷◌, codes};
ghost use Rattle.fv_file.specs.FileAttributes.{attribute_bits, is_large, is_fixed, is_summed, without_large};

use bitflags::{Flag, Flags, bitflag_items};

/// All eight attribute bits of a file, as found. (PI specification, volume 3, section 3.2.3.1,
/// `FFS_ATTRIB_LARGE_FILE` and the other `FFS_ATTRIB` bits.)
#[derive(Clone, Copy, PartialEq, Eq, Debug)]
pub struct FileAttributes(u8);

bitflag_items! {
    impl FileAttributes: u8 {
        /// `FFS_ATTRIB_LARGE_FILE`: the header is `EFI_FFS_FILE_HEADER2`.
        const LARGE_FILE = 0x01;
        /// `FFS_ATTRIB_DATA_ALIGNMENT_2`: the alignment is from the second table.
        const DATA_ALIGNMENT_2 = 0x02;
        /// `FFS_ATTRIB_FIXED`: the file may not be moved.
        const FIXED = 0x04;
        /// `FFS_ATTRIB_DATA_ALIGNMENT`: the alignment code, which is an index into the table.
        const DATA_ALIGNMENT = 0x38;
        /// `FFS_ATTRIB_CHECKSUM`: the file checksum covers the data.
        const CHECKSUM = 0x40;
    }
}

impl Flags for FileAttributes {
    type Bits = u8;

    ghost exact = { ⊤ };

    ghost table = { (codes "LARGE_FILE", 1) ∷ (codes "DATA_ALIGNMENT_2", 2) ∷ (codes "FIXED", 4)
        ∷ (codes "DATA_ALIGNMENT", 56)
        ∷ (codes "CHECKSUM", 64) ∷ [] };

    ghost set_of = { λ a. a.0 };

    fn flags<'a>() -> &'a [Flag<FileAttributes>] {
        FileAttributes::FLAGS
    }

    fn bits(&self) -> u8 {
        self.0
    }

    fn from_bits_retain(bits: u8) -> FileAttributes {
        FileAttributes(bits)
    }
}

impl FileAttributes {
    /// Returns the attribute bits as the byte that a header contains.
    pub fn byte(self) -> u8
        ensures { result ≡ attribute_bits self }
    {
        self.bits()
    }

    /// Returns whether the header has 32 bytes: bit 0x01, `FFS_ATTRIB_LARGE_FILE`, is set.
    pub fn is_large(self) -> bool
        ensures { result ≡ is_large self.0 }
    {
        self.contains(FileAttributes::LARGE_FILE)
    }

    /// Returns whether the file may not be moved: bit 0x04, `FFS_ATTRIB_FIXED`, is set.
    #[tactic(auto, using(crate::proofs::FileAttributeLemmas::bit_2))]
    pub fn is_fixed(self) -> bool
        ensures { result ≡ is_fixed self.0 }
    {
        self.contains(FileAttributes::FIXED)
    }

    /// Returns whether the file checksum covers the data: bit 0x40, `FFS_ATTRIB_CHECKSUM`, is set.
    #[tactic(auto, using(crate::proofs::FileAttributeLemmas::bit_6))]
    pub fn is_summed(self) -> bool
        ensures { result ≡ is_summed self.0 }
    {
        self.contains(FileAttributes::CHECKSUM)
    }

    /// Returns the bits with 0x01, `FFS_ATTRIB_LARGE_FILE`, cleared, since that bit belongs to the
    /// form of the header. Pass these bits to `file_head_bytes` to write a file that was read.
    pub fn without_large(self) -> FileAttributes
        ensures { result.0 ≡ without_large self.0 }
    {
        self.difference(FileAttributes::LARGE_FILE)
    }
}
