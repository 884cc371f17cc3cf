//! The ways to open a section.

ghost use Rattle.std.specs.Prelude.{◌≡◌};
ghost use Rattle.std.specs.Str.{bytes_eq};
ghost use Rattle.fv_base.specs.Words.{bytes_of};
ghost use Rattle.fv_open.specs.Ways.{compression_way, guid_way, guided_way, is_decoded};

use fv_base::Guid;

/// A way to open a section. (PI specification, volume 3, sections 3.2.5.2 and 3.2.5.7.)
#[derive(Clone, Copy, Debug, PartialEq, Eq)]
pub enum Way {
    /// The contents are stored as they are: a compression section of CompressionType 0
    /// (`EFI_NOT_COMPRESSED`).
    Stored,
    /// The compression of the UEFI specification or Tiano's, of which only decoding shows which: a
    /// compression section of CompressionType 1 (`EFI_STANDARD_COMPRESSION`).
    Standard,
    /// The compression of the UEFI specification, as decoding a `Standard` section showed.
    Uefi,
    /// Tiano's form of this compression: the GUID a31280ad-481e-41b6-95e8-127f4c984779, or as
    /// decoding a `Standard` section showed.
    Tiano,
    /// LZMA, maybe after four other bytes: a compression section of CompressionType 2
    /// (`EFI_CUSTOMIZED_COMPRESSION`).
    Customized,
    /// LZMA: the GUID ee4e5898-3914-4259-9d6e-dc7bd79403cf, the GUID
    /// 0ed85e23-f253-413f-a03c-901987b04397, which HP uses, or a `Customized` section.
    Lzma,
    /// LZMA of x86 code whose relative addresses were replaced by absolute ones: the GUID
    /// d42ae6bd-1352-4bfb-909a-ca72a6eae889, or a compression section of CompressionType 0x86.
    LzmaX86,
    /// The contents are stored with their CRC32: the GUID fc1bcdb0-7d31-49aa-936a-a4600d9dd083
    /// (`EFI_CRC32_GUIDED_SECTION_EXTRACTION_GUID`).
    Crc32,
    /// The contents are stored with a signature, which is not verified: the GUID
    /// a7717414-c616-4977-9420-844712a735bf (RSA 2048 and SHA-256), or the GUID
    /// 0f9d89e8-9259-4f76-a5af-0c89e34023df (`EFI_FIRMWARE_CONTENTS_SIGNED_GUID`).
    Signed,
    /// The contents are stored as they are: any other GUID, if Attributes do not say that the
    /// contents have to be processed (`EFI_GUIDED_SECTION_PROCESSING_REQUIRED`, bit 0x01).
    Plain,
}

impl Way {
    /// Returns whether the contents have to be decoded. If not, they are part of the section as they
    /// are.
    pub fn is_decoded(self) -> bool
        ensures { result ≡ is_decoded self }
    {
        match self {
            Way::Standard => true,
            Way::Uefi => true,
            Way::Tiano => true,
            Way::Customized => true,
            Way::Lzma => true,
            Way::LzmaX86 => true,
            _ => false,
        }
    }
}

/// LZMA, ee4e5898-3914-4259-9d6e-dc7bd79403cf.
const LZMA: [u8; 16] = [
    0x98, 0x58, 0x4e, 0xee, 0x14, 0x39, 0x59, 0x42, 0x9d, 0x6e, 0xdc, 0x7b, 0xd7, 0x94, 0x03, 0xcf,
];

/// LZMA in firmware of HP, 0ed85e23-f253-413f-a03c-901987b04397.
const LZMA_HP: [u8; 16] = [
    0x23, 0x5e, 0xd8, 0x0e, 0x53, 0xf2, 0x3f, 0x41, 0xa0, 0x3c, 0x90, 0x19, 0x87, 0xb0, 0x43, 0x97,
];

/// LZMA of x86 code, d42ae6bd-1352-4bfb-909a-ca72a6eae889.
const LZMA_X86: [u8; 16] = [
    0xbd, 0xe6, 0x2a, 0xd4, 0x52, 0x13, 0xfb, 0x4b, 0x90, 0x9a, 0xca, 0x72, 0xa6, 0xea, 0xe8, 0x89,
];

/// Tiano's compression, a31280ad-481e-41b6-95e8-127f4c984779.
const TIANO: [u8; 16] = [
    0xad, 0x80, 0x12, 0xa3, 0x1e, 0x48, 0xb6, 0x41, 0x95, 0xe8, 0x12, 0x7f, 0x4c, 0x98, 0x47, 0x79,
];

/// CRC32, fc1bcdb0-7d31-49aa-936a-a4600d9dd083.
const CRC32: [u8; 16] = [
    0xb0, 0xcd, 0x1b, 0xfc, 0x31, 0x7d, 0xaa, 0x49, 0x93, 0x6a, 0xa4, 0x60, 0x0d, 0x9d, 0xd0, 0x83,
];

/// A signature by RSA 2048 and SHA-256, a7717414-c616-4977-9420-844712a735bf.
const RSA_SHA256: [u8; 16] = [
    0x14, 0x74, 0x71, 0xa7, 0x16, 0xc6, 0x77, 0x49, 0x94, 0x20, 0x84, 0x47, 0x12, 0xa7, 0x35, 0xbf,
];

/// Signed firmware contents, 0f9d89e8-9259-4f76-a5af-0c89e34023df.
const CONTENTS_SIGNED: [u8; 16] = [
    0xe8, 0x89, 0x9d, 0x0f, 0x59, 0x92, 0x76, 0x4f, 0xa5, 0xaf, 0x0c, 0x89, 0xe3, 0x40, 0x23, 0xdf,
];

/// Returns the way of a compression section by its CompressionType, if it is known.
pub(crate) fn compression_way(kind: u8) -> Option<Way>
    ensures { result ≡ compression_way kind }
{
    if kind == 0 {
        Some(Way::Stored)
    } else if kind == 1 {
        Some(Way::Standard)
    } else if kind == 2 {
        Some(Way::Customized)
    } else if kind == 0x86 {
        Some(Way::LzmaX86)
    } else {
        None
    }
}

// Returns whether a GUID has these bytes.
fn is(guid: Guid, bytes: [u8; 16]) -> bool
    ensures { result ≡ bytes_eq (bytes_of guid) bytes }
{
    guid == Guid::from_bytes(bytes)
}

// Returns the way of a GUID-defined section by its GUID, if it is known.
fn guid_way(guid: Guid) -> Option<Way>
    ensures { result ≡ guid_way (bytes_of guid) }
{
    if is(guid, LZMA) || is(guid, LZMA_HP) {
        Some(Way::Lzma)
    } else if is(guid, LZMA_X86) {
        Some(Way::LzmaX86)
    } else if is(guid, TIANO) {
        Some(Way::Tiano)
    } else if is(guid, CRC32) {
        Some(Way::Crc32)
    } else if is(guid, RSA_SHA256) || is(guid, CONTENTS_SIGNED) {
        Some(Way::Signed)
    } else {
        None
    }
}

/// Returns the way of a GUID-defined section by its GUID and its Attributes, if it is known.
pub(crate) fn guided_way(guid: Guid, attributes: u16) -> Option<Way>
    ensures { result ≡ guided_way (bytes_of guid) attributes }
{
    let known = guid_way(guid);
    if known.is_none() && attributes % 2 == 0 {
        return Some(Way::Plain);
    }
    known
}
