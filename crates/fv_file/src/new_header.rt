//! Makes the headers of new files and pads.

ghost use Rattle.std.specs.Prelude.{◌≡◌, ℕ, List, ◌≢◌, ◌<◌, ◌≤◌, false, length};
ghost use Rattle.fv_base.specs.Words.{bytes_of, data_limit, IsBytes};
ghost use Rattle.fv_file.specs.FileAttributes.{attribute_bits, is_large, is_fixed};
ghost use Rattle.fv_file.specs.FileHeaders.{header_sum_at, pad_kind};
ghost use Rattle.fv_file.specs.inner.NewHeaderParts.{HasPlace, size_fields, whole_bytes, header_of, new_header_bytes};
ghost use Rattle.fv_file.specs.inner.NewHeaderParts.{file_header, pad_header};
ghost use Rattle.fv_file.specs.HeaderReads.{IsNewHeader, IsHeadOfFile, IsHeadOfPad, file_fields, pad_fields};
ghost use Rattle.fv_file.specs.NewHeaders.{file_head_of, pad_head_of, with_large, state_byte};

use crate::attributes::FileAttributes;
use crate::file_type::FFS_PAD;
use crate::head::{FIXED_CHECKSUM, header_len};
use crate::offsets::{
    ATTRIBUTES_OFFSET, EXTENDED_SIZE_OFFSET, FILE_SUM_OFFSET, HEADER_LEN, HEADER_SUM_OFFSET,
    LARGE_HEADER_LEN, SHORT_SIZE_LIMIT, SIZE_OFFSET, STATE_OFFSET, TYPE_OFFSET,
};
use bitflags::Flags;
use byteorder::{ByteOrder, LittleEndian};
use fv_base::{Guid, Polarity, sum8};
use std::marker::Model;

/// `State` of a new file with valid data, if erased bits are zeros: the bits
/// `EFI_FILE_HEADER_CONSTRUCTION`, `EFI_FILE_HEADER_VALID` and `EFI_FILE_DATA_VALID`. (PI
/// specification, volume 3, section 3.2.3.1, `EFI_FFS_FILE_STATE`.)
pub const NEW_STATE_ON_ZEROS: u8 = 0x07;

/// `State` of a new file if erased bits are ones: the same bits, written as zeros.
pub const NEW_STATE_ON_ONES: u8 = 0xf8;

/// The bytes of a file's header: 24 bytes, `EFI_FFS_FILE_HEADER`, or 32 for a large header,
/// `EFI_FFS_FILE_HEADER2`. In contracts, it is the list of these bytes. (PI specification, volume
/// 3, section 3.2.3.1.)
#[derive(Drop)]
pub struct HeadBytes {
    bytes: [u8; LARGE_HEADER_LEN],
    count: usize,
}

impl Model for HeadBytes {
    ghost use Rattle.std.specs.Prelude.{List, ℕ, ◌≤◌, take};

    ghost Value = { List ℕ };

    ghost view = { λ h. take h.count h.bytes };

    ghost invariant = { λ h. h.count ≤ 32 };
}

impl HeadBytes {
    /// Returns the bytes, in order.
    pub fn as_slice(&self) -> &[u8]
        ensures { result.now ≡ self.now }
    {
        &self.bytes[..self.count]
    }
}

/// The fields of a new header. They determine its header checksum, and the erase polarity
/// determines `State`.
#[derive(Clone, Copy)]
struct NewHeader {
    /// The name, `Name`.
    name: Guid,
    /// The type, `Type`.
    kind: u8,
    /// The attribute bits, `Attributes`. Bit 0x01, `FFS_ATTRIB_LARGE_FILE`, is set for the large
    /// form.
    attributes: FileAttributes,
    /// The size of the file in bytes, including its header.
    size: u64,
    /// The file checksum, `IntegrityCheck.Checksum.File`.
    file_sum: u8,
}

// Returns `State` of a new file.
fn state_byte(polarity: Polarity) -> u8
    ensures { result ≡ state_byte polarity }
{
    match polarity {
        Polarity::Ones => NEW_STATE_ON_ONES,
        Polarity::Zeros => NEW_STATE_ON_ZEROS,
    }
}

// Returns `Size`, `State` and `ExtendedSize`, in this order. The size field that the form does not
// use is zero.
fn size_fields(size: u64, large: bool, state: u8) -> [u8; 12]
    requires { large ≡ false → size < 0x1000000 }
    ensures { result ≡ size_fields size large state }
{
    let mut bytes = [0u8; 12];
    bytes[STATE_OFFSET - SIZE_OFFSET] = state;
    if large {
        LittleEndian::write_u64(&mut bytes[EXTENDED_SIZE_OFFSET - SIZE_OFFSET..], size);
    } else {
        LittleEndian::write_u24(&mut bytes, size as u32);
    }
    bytes
}

// Returns the 32 bytes of a large header, or the 24 bytes of a short header with zeros after them.
fn whole_bytes(
    header: &NewHeader,
    header_sum: u8,
    file_sum: u8,
    state: u8,
) -> [u8; LARGE_HEADER_LEN]
    requires { HasPlace header.now }
    ensures { result ≡ whole_bytes header.now header_sum file_sum state }
{
    let mut bytes = [0u8; LARGE_HEADER_LEN];
    bytes[HEADER_SUM_OFFSET] = header_sum;
    bytes[FILE_SUM_OFFSET] = file_sum;
    bytes[TYPE_OFFSET] = header.kind;
    bytes[ATTRIBUTES_OFFSET] = header.attributes.bits();
    bytes[SIZE_OFFSET..].copy_from_slice(&size_fields(
        header.size,
        header.attributes.is_large(),
        state,
    ));
    bytes[..HEADER_SUM_OFFSET].copy_from_slice(&header.name.to_bytes());
    bytes
}

// Returns the bytes of a header with these two checksums and this State.
fn header_of(header: &NewHeader, header_sum: u8, file_sum: u8, state: u8) -> HeadBytes
    requires { HasPlace header.now }
    ensures is { result ≡ header_of header.now header_sum file_sum state }
    ensures bytes { IsBytes result }
    ensures name { length (bytes_of header.now.name) ≡ 16 }
{
    HeadBytes {
        bytes: whole_bytes(header, header_sum, file_sum, state),
        count: header_len(header.attributes.is_large()),
    }
}

// Returns the bytes of a header with the right header checksum.
fn new_header_bytes(header: &NewHeader, polarity: Polarity) -> HeadBytes
    requires { HasPlace header.now }
    ensures is { result ≡ new_header_bytes header.now polarity }
    ensures bytes { IsBytes result }
    ensures name { length (bytes_of header.now.name) ≡ 16 }
{
    let sum = sum8(header_of(header, 0, 0, 0).as_slice());
    let header_sum = 0u8.wrapping_sub(sum);
    header_of(header, header_sum, header.file_sum, state_byte(polarity))
}

// Returns the attribute bits, with bit 0x01 set for the large form.
#[tactic(auto, using(crate::proofs::FileAttributeLemmas::large_set))]
fn with_form(attributes: FileAttributes, large: bool) -> FileAttributes
    requires { is_large (attribute_bits attributes) ≡ false }
    ensures { attribute_bits result ≡ with_large large (attribute_bits attributes) }
{
    let mut bits = attributes;
    if large {
        bits.insert(FileAttributes::LARGE_FILE);
    }
    bits
}

// Returns the fields of the header of a file.
fn file_header(
    name: Guid,
    kind: u8,
    attributes: FileAttributes,
    data_len: u64,
    file_sum: u8,
) -> NewHeader
    requires short { is_large (attribute_bits attributes) ≡ false }
    requires most { data_len ≤ data_limit }
    ensures { result ≡ file_header name kind attributes data_len file_sum }
{
    let large = HEADER_LEN as u64 + data_len > SHORT_SIZE_LIMIT;
    NewHeader {
        name,
        kind,
        attributes: with_form(attributes, large),
        size: header_len(large) as u64 + data_len,
        file_sum,
    }
}

// Returns the fields of the header of a pad.
fn pad_header(size: u64) -> NewHeader
    ensures { result ≡ pad_header size }
{
    NewHeader {
        name: Guid::from_bytes([0xff; 16]),
        kind: FFS_PAD,
        attributes: FileAttributes::from_bits_retain(0),
        size,
        file_sum: FIXED_CHECKSUM,
    }
}

/// Returns the header of a file whose data are valid. The header has the short form if header and
/// data together have at most 0xFFFFFF bytes, and otherwise the large form. `kind` is not the type
/// of a pad. In `attributes`, bit 0x04 is clear, and so is bit 0x01, which this call sets for the
/// large form. `data_len` is the length of the data in bytes, at most 268,435,424 (the limit of a
/// volume minus a large header). `file_sum` is written as the file checksum. Takes no memory. (PI
/// specification, volume 3, section 3.2.3.1.)
pub fn file_head_bytes(
    name: Guid,
    kind: u8,
    attributes: FileAttributes,
    data_len: u64,
    file_sum: u8,
    polarity: Polarity,
) -> HeadBytes
    requires kind { kind ≢ pad_kind }
    requires short { is_large (attribute_bits attributes) ≡ false }
    requires moves { is_fixed (attribute_bits attributes) ≡ false }
    requires most { data_len ≤ data_limit }

    // The result is the header of a new file, with the fields that were passed in.
    ensures read { IsNewHeader polarity
        (file_fields name kind attributes data_len file_sum (header_sum_at result)) result }

    // No other bytes are the header of a new file with these fields.
    ensures only { (header_sum : ℕ) (h : List ℕ)
        → IsNewHeader polarity (file_fields name kind attributes data_len file_sum header_sum) h → h ≡ result }

    // If `file_sum` is right for the data, the cell of a valid file consists of the result, the
    // data and the filler.
    ensures cell { IsHeadOfFile polarity
        (file_fields name kind attributes data_len file_sum (header_sum_at result)) result }

    // The result is the bytes that `file_head_of` defines.
    ensures bytes { result ≡ file_head_of name kind attributes data_len file_sum polarity }
{
    new_header_bytes(
        &file_header(name, kind, attributes, data_len, file_sum),
        polarity,
    )
}

/// Returns the header of a pad file. `size` is the size of the pad in bytes, including this header:
/// 24 to 0xFFFFFF. The name is 16 bytes 0xFF, the type is 0xF0, the attributes are 0 and the file
/// checksum is 0xAA. Takes no memory. (PI specification, volume 3, section 3.2.3.1.)
pub fn pad_head_bytes(size: u64, polarity: Polarity) -> HeadBytes
    requires least { 24 ≤ size }
    requires most { size ≤ 0xffffff }

    // The result is the header of a new pad of this size.
    ensures read { IsNewHeader polarity (pad_fields size (header_sum_at result)) result }

    // No other bytes are the header of a new pad of this size.
    ensures only { (header_sum : ℕ) (h : List ℕ) → IsNewHeader polarity (pad_fields size header_sum) h → h ≡ result }

    // The result, the pad's other bytes and the filler are the cell of a pad.
    ensures cell { IsHeadOfPad polarity (pad_fields size (header_sum_at result)) result }

    // The result is the bytes that `pad_head_of` defines.
    ensures bytes { result ≡ pad_head_of size polarity }
{
    new_header_bytes(&pad_header(size), polarity)
}
