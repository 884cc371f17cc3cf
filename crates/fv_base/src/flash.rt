//! The erase polarity, and the two file systems.

ghost use Rattle.std.specs.Prelude.{◌≡◌, ◌⊎◌};
ghost use Rattle.fv_base.specs.Flash.{erased_byte};

/// The erase polarity: whether erased bits are ones or zeros. (PI specification, volume 3, section
/// 3.2.1.1, `EFI_FVB2_ERASE_POLARITY`.)
#[derive(Clone, Copy, Debug, PartialEq, Eq)]
pub enum Polarity {
    /// An erased byte is 0xFF.
    Ones,
    /// An erased byte is 0x00.
    Zeros,
}

impl Polarity {
    /// Returns the value of an erased byte: 0xFF or 0x00.
    pub fn erased(self) -> u8
        ensures value { result ≡ erased_byte self }
        ensures either { (result ≡ 0) ⊎ (result ≡ 255) }
    {
        match self {
            Polarity::Ones => 0xff,
            Polarity::Zeros => 0,
        }
    }
}

/// The two file systems that can be read. (PI specification, volume 3, section 3.2.2.)
#[derive(Clone, Copy, Debug, PartialEq, Eq)]
pub enum FileSystem {
    /// Files below 16 MiB: `EFI_FIRMWARE_FILE_SYSTEM2_GUID`,
    /// `8c8ce578-8a3d-4f1c-9935-896185c32dd3`.
    Ffs2,
    /// Files of any size: `EFI_FIRMWARE_FILE_SYSTEM3_GUID`, `5473c07a-3dcb-4dca-bd6f-1e9689e7349a`.
    Ffs3,
}
