//! The volume header of the canonical image: its fields, its checksum and its bytes.

ghost use Rattle.std.specs.Prelude.{◌≡◌, ◌+◌, ◌-◌, ◌%◌, ◌≤◌, ◌<◌, ◌++◌, List, [], ◌∷◌, ℕ, length, IfOk, IfErr};
ghost use Rattle.fv_base.specs.Words.{out_of_memory, header_limit, ext_limit, le_bytes, up_to_8};
ghost use Rattle.fv_head.specs.HeadReads.{IsCanonicalHead, IsReadHead, extent_of};
ghost use Rattle.fv_head.specs.Head.{BeginsVolume, canonical_offset};
ghost use Rattle.fv_head.specs.Pairs.{pairs_bytes};
ghost use Rattle.fv_head.specs.HeadReads.{CanonicalRest, IfRead};
ghost use Rattle.fv_head.specs.ExtImage.{canonical_end, first_edge};
ghost use Rattle.fv_head.specs.HeadImage.{head_spelled, canonical_head, checksum_of};
ghost use Rattle.fv_head.specs.inner.HeadFronts.{front_spelled};
ghost use Rattle.fv_head.specs.inner.WordSums.{adds_words_by, AddsWords, word_weight};

use crate::ext_image::len_of_ext;
use crate::head::VolumeHead;
use crate::header_checks::{REVISION, SIGNATURE, system_guid};
use crate::offsets::{
    ATTRIBUTES_OFFSET, BLOCK_MAP_OFFSET, CHECKSUM_OFFSET, EXT_HEADER_OFFSET_OFFSET,
    FILE_SYSTEM_GUID_OFFSET, FV_LENGTH_OFFSET, HEADER_LENGTH_OFFSET, RESERVED_OFFSET,
    REVISION_OFFSET, SIGNATURE_OFFSET,
};
use bitflags::Flags;
use byteorder::{ByteOrder, LittleEndian};
use fv_base::field::up_to_8;
use fv_base::{ByteList, Fault, ListSink, Sink, sum16};
use std::alloc::Global;

/// A sink that sums the 16-bit words of the bytes that are put, modulo 65536. `high` says whether
/// the next byte is the high byte of a word.
#[derive(Drop)]
struct WordSink {
    total: u16,
    high: bool,
}

// Returns the number that a byte adds to a sum of 16-bit words: as the high byte of a word if
// `high` is true, and otherwise as the low byte.
fn word_weight(byte: u8, high: bool) -> u16
    ensures { result ≡ word_weight high (byte ∷ []) }
{
    let low = u16::from(byte);
    if high { low * 256 } else { low }
}

impl Sink for WordSink {
    ghost takes = { AddsWords (λ s. s.total) (λ s. s.high) };

    ghost laws = { adds_words_by (λ s. s.total) (λ s. s.high) };

    fn put(&mut self, bytes: &[u8]) {
        // The parts of a header are whole words. Their sum is faster than a sum of single bytes.
        if !self.high && bytes.len() % 2 == 0 {
            self.total = self.total.wrapping_add(sum16(bytes));
            return;
        }
        for byte in bytes {
            self.total = self.total.wrapping_add(word_weight(*byte, self.high));
            self.high = !self.high;
        }
    }
}

// Puts a 2-byte number.
pub(crate) fn put_u16<S: Sink>(out: &mut S, number: u16)
    ensures { S.takes out.old (le_bytes 2 number) out.new }
{
    let mut bytes = [0; 2];
    LittleEndian::write_u16(&mut bytes, number);
    out.put(&bytes);
}

// Puts a 4-byte number.
pub(crate) fn put_u32<S: Sink>(out: &mut S, number: u32)
    ensures { S.takes out.old (le_bytes 4 number) out.new }
{
    let mut bytes = [0; 4];
    LittleEndian::write_u32(&mut bytes, number);
    out.put(&bytes);
}

// Puts an 8-byte number.
fn put_u64<S: Sink>(out: &mut S, number: u64)
    ensures { S.takes out.old (le_bytes 8 number) out.new }
{
    let mut bytes = [0; 8];
    LittleEndian::write_u64(&mut bytes, number);
    out.put(&bytes);
}

// Puts the pairs of a block map.
fn put_pairs<S: Sink>(out: &mut S, pairs: &[(u32, u32)])
    ensures { S.takes out.old (pairs_bytes pairs.now) out.new }
{
    for (count, size) in pairs {
        put_u32(out, *count);
        put_u32(out, *size);
    }
}

// Returns `ExtHeaderOffset` of the canonical header: the offset of the extended header, or 0 if
// there is none.
fn canonical_offset(head: &VolumeHead<'_>) -> u16
    ensures offset { result ≡ canonical_offset head.now head.now.ext }
    ensures read { IfRead head.now.ext }
{
    match head.ext() {
        None => 0,
        Some(ext) => {
            let _name = ext.name();
            head.header_len() + 24
        }
    }
}

/// Returns the first edge: the offset at which the first file of the canonical image may begin, in
/// bytes from the volume's start. Without an extended header, this is the end of the volume header.
/// Otherwise it is the end of the pad file that holds the extended header, rounded up to a multiple
/// of 8. (That pad file follows the volume header. The pad file consists of its own header, 24
/// bytes, and the extended header.) Takes no memory. (PI specification, volume 3, sections 3.2.1.1
/// and 3.2.1.2.)
pub fn first_edge(head: &VolumeHead<'_>) -> u64
    ensures edge { result ≡ first_edge head.now head.now.ext }
    ensures most { result ≤ up_to_8 (header_limit + 24 + ext_limit) }
{
    let header_len = u64::from(head.header_len());
    match head.ext() {
        None => header_len,
        Some(ext) => up_to_8(header_len + 24 + u64::from(len_of_ext(ext))),
    }
}

// Returns the canonical header up to the block map, but with this checksum.
fn front_bytes(head: &VolumeHead<'_>, checksum: u16) -> [u8; BLOCK_MAP_OFFSET]
    ensures bytes { result ≡ front_spelled head.now checksum (canonical_offset head.now head.now.ext) }
    ensures read { IsReadHead head.now }
    ensures ext { IfRead head.now.ext }
{
    let mut bytes = [0u8; BLOCK_MAP_OFFSET];
    bytes[RESERVED_OFFSET] = head.reserved();
    bytes[REVISION_OFFSET] = REVISION;
    LittleEndian::write_u16(
        &mut bytes[EXT_HEADER_OFFSET_OFFSET..],
        canonical_offset(head),
    );
    LittleEndian::write_u16(&mut bytes[CHECKSUM_OFFSET..], checksum);
    LittleEndian::write_u16(&mut bytes[HEADER_LENGTH_OFFSET..], head.header_len());
    LittleEndian::write_u32(&mut bytes[ATTRIBUTES_OFFSET..], head.attributes().bits());
    bytes[SIGNATURE_OFFSET..ATTRIBUTES_OFFSET].copy_from_slice(&SIGNATURE);
    LittleEndian::write_u64(&mut bytes[FV_LENGTH_OFFSET..], head.length());
    bytes[FILE_SYSTEM_GUID_OFFSET..FV_LENGTH_OFFSET].copy_from_slice(&system_guid(
        head.file_system(),
    ).to_bytes());
    bytes[..FILE_SYSTEM_GUID_OFFSET].copy_from_slice(head.zero_vector());
    bytes
}

// Puts the canonical header, but with this checksum, into a sink.
fn put_spelled<S: Sink>(out: &mut S, head: &VolumeHead<'_>, checksum: u16)
    ensures bytes { S.takes out.old (head_spelled head.now checksum (canonical_offset head.now head.now.ext)) out.new }
    ensures read { IsReadHead head.now }
    ensures ext { IfRead head.now.ext }
{
    out.put(&front_bytes(head, checksum));
    put_pairs(out, head.blocks().as_slice());
    put_u64(out, 0);
}

// Returns the number that, added to a sum of 16-bit words, makes it 0 modulo 65536.
fn complement(sum: u16) -> u16
    ensures value { result ≡ (65536 - sum) % 65536 }
    ensures small { sum < 65536 }
{
    0u16.wrapping_sub(sum)
}

// Returns `Checksum` of the canonical header: the number that makes the header's 16-bit words sum
// to 0.
#[tactic(auto, using(crate::proofs::HeadImageLemmas::checksum_from))]
fn checksum_of(head: &VolumeHead<'_>) -> u16
    ensures { result ≡ checksum_of head.now (canonical_offset head.now head.now.ext) }
{
    let mut sum = WordSink {
        total: 0,
        high: false,
    };
    put_spelled(&mut sum, head, 0);
    complement(sum.total)
}

/// Puts the volume header of the canonical image into the sink `out`: the fields of `head`, with
/// the right checksum. `ExtHeaderOffset` is `HeaderLength` + 24 if there is an extended header, and
/// otherwise 0. Takes no memory. (PI specification, volume 3, section 3.2.1.1,
/// `EFI_FIRMWARE_VOLUME_HEADER`.)
pub fn put_head<S: Sink>(out: &mut S, head: &VolumeHead<'_>)
    ensures bytes { S.takes out.old (canonical_head head.now) out.new }
    ensures read { IsReadHead head.now }
    ensures ext { IfRead head.now.ext }
{
    put_spelled(out, head, checksum_of(head));
}

/// Returns the volume header of the canonical image, `HeaderLength` bytes, as `put_head` puts it.
/// (PI specification, volume 3, section 3.2.1.1.)
///
/// # Errors
///
/// OutOfMemory at offset 0.
pub fn head_bytes(alloc: Global, head: &VolumeHead<'_>) -> Result<ByteList, Fault>
    // These bytes are the volume header of the canonical image, and no other bytes are this header.
    ensures head { IfOk result (λ bytes. IsCanonicalHead head.now bytes) }
    ensures only { (other : List ℕ) → IsCanonicalHead head.now other → IfOk result (λ bytes. bytes ≡ other) }

    // They are the bytes that `canonical_head` defines.
    ensures bytes { IfOk result (λ found. found ≡ canonical_head head.now) }

    // They are read back as the same header if the rest of a volume follows them, at least up to
    // FvLength. If there is an extended header, the rest must begin with 24 bytes (the header of a
    // pad file) and the extended header, which must end within FvLength.
    ensures again { IfOk result (λ bytes. (rest : List ℕ) → CanonicalRest head.now.ext rest
        → canonical_end head.now head.now.ext ≤ head.now.length
        → head.now.length ≤ length (bytes ++ rest)
        → BeginsVolume head.now (extent_of head.now (first_edge head.now head.now.ext)) (bytes ++ rest)) }

    // The only error is OutOfMemory.
    ensures err { IfErr result (λ f. f ≡ out_of_memory) }
{
    let mut out = ListSink::with_room(alloc, usize::from(head.header_len()))?;
    put_head(&mut out, head);
    out.finish()
}
