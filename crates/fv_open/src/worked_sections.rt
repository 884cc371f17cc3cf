//! Worked sections: small sections, byte by byte, with their contents or their first fault. They show
//! that each way opens a section, and that each fault can be the first fault. The functions do
//! nothing: their contracts are the sections. The sums of the bytes are from zlib.

ghost use Rattle.std.specs.Prelude.{◌≡◌, ◌∷◌, ◌++◌, [], drop, replicate};
ghost use Rattle.fv_open.specs.Contents.{opened};
ghost use Rattle.fv_open.specs.Ways.{contents_signed_guid, crc32_guid, lzma_guid, lzma_hp_guid, lzma_x86_guid, rsa_sha256_guid};
ghost use Rattle.fv_open.specs.Ways.{tiano_guid};
ghost use Rattle.fv_open.specs.WorkedInputs.{compression_section, empty_section, gives, guided_section, lzma_a, other_guid};
ghost use Rattle.fv_open.specs.WorkedInputs.{packed_4, packed_5, rejects, short_section, three_bytes};

use crate::fault::OpenFaultKind;
use crate::way::Way;
use fv_packed::PackedFaultKind;

/// Compression sections of each CompressionType. The contents may have another length than
/// UncompressedLength.
pub fn compression_sections()
    ensures stored { opened 3 (compression_section 0 9 three_bytes) ≡ gives Way.Stored three_bytes }
    ensures uefi { opened 9 (compression_section 1 4 packed_4) ≡ gives Way.Uefi empty_section }
    ensures tiano { opened 9 (compression_section 1 4 packed_5) ≡ gives Way.Tiano empty_section }
    ensures customized { opened 9 (compression_section 2 1 lzma_a) ≡ gives Way.Lzma (97 ∷ []) }
    ensures after_four { opened 9 (compression_section 2 1 (255 ∷ 0 ∷ 0 ∷ 0 ∷ lzma_a)) ≡ gives Way.Lzma (97 ∷ []) }
    ensures x86 { opened 9 (compression_section 134 1 lzma_a) ≡ gives Way.LzmaX86 (97 ∷ []) }
{}

/// GUID-defined sections of each way.
pub fn guided_sections()
    ensures lzma { opened 9 (guided_section lzma_guid 24 1 lzma_a) ≡ gives Way.Lzma (97 ∷ []) }
    ensures hp { opened 9 (guided_section lzma_hp_guid 25 1 (9 ∷ lzma_a)) ≡ gives Way.Lzma (97 ∷ []) }
    ensures x86 { opened 9 (guided_section lzma_x86_guid 24 1 lzma_a) ≡ gives Way.LzmaX86 (97 ∷ []) }
    ensures tiano { opened 9 (guided_section tiano_guid 24 1 packed_5) ≡ gives Way.Tiano empty_section }
    ensures crc32 { opened 1 (guided_section crc32_guid 28 2 (141 ∷ 239 ∷ 2 ∷ 210 ∷ 0 ∷ [])) ≡ gives Way.Crc32 (0 ∷ []) }
    ensures rsa { opened 3 (guided_section rsa_sha256_guid 25 3 (9 ∷ three_bytes)) ≡ gives Way.Signed three_bytes }
    ensures signed { opened 3 (guided_section contents_signed_guid 24 1 three_bytes) ≡ gives Way.Signed three_bytes }
    ensures plain { opened 3 (guided_section other_guid 24 0 three_bytes) ≡ gives Way.Plain three_bytes }
{}

/// Bytes that are rejected because of their header, and their first faults.
pub fn head_faults()
    ensures no_section { opened 9 (3 ∷ 0 ∷ 0 ∷ 1 ∷ []) ≡ rejects OpenFaultKind.Short 0 }
    ensures compression { opened 9 (short_section 1 (0 ∷ 0 ∷ 0 ∷ 0 ∷ [])) ≡ rejects OpenFaultKind.Short 8 }
    ensures guided { opened 9 (short_section 2 (replicate 19 0)) ≡ rejects OpenFaultKind.Short 23 }
    ensures before { opened 9 (guided_section lzma_guid 23 1 lzma_a) ≡ rejects OpenFaultKind.Short 20 }
    ensures past { opened 9 (guided_section other_guid 28 0 three_bytes) ≡ rejects OpenFaultKind.Short 20 }
    ensures sum { opened 9 (guided_section crc32_guid 27 2 (0 ∷ 0 ∷ 0 ∷ 0 ∷ [])) ≡ rejects OpenFaultKind.Short 20 }
    ensures kind { opened 9 (short_section 16 three_bytes) ≡ rejects OpenFaultKind.UnknownWay 3 }
    ensures way { opened 9 (compression_section 3 3 three_bytes) ≡ rejects OpenFaultKind.UnknownWay 8 }
    ensures guid { opened 9 (guided_section other_guid 24 1 three_bytes) ≡ rejects OpenFaultKind.UnknownWay 4 }
{}

/// Sections whose contents are damaged, or longer than the limit, and their first faults.
pub fn contents_faults()
    ensures damaged { opened 9 (compression_section 2 1 (255 ∷ drop 1 lzma_a))
        ≡ rejects (OpenFaultKind.Damaged PackedFaultKind.Properties) 9 }
    ensures lengths { opened 9 (compression_section 1 4 (drop 1 packed_5)) ≡ rejects (OpenFaultKind.Damaged PackedFaultKind.Short) 27 }
    ensures sum { opened 9 (guided_section crc32_guid 28 2 (141 ∷ 239 ∷ 2 ∷ 211 ∷ 0 ∷ [])) ≡ rejects OpenFaultKind.Sum 24 }
    ensures stored { opened 2 (compression_section 0 3 three_bytes) ≡ rejects OpenFaultKind.TooLong 9 }
    ensures long_sum { opened 0 (guided_section crc32_guid 28 2 (141 ∷ 239 ∷ 2 ∷ 211 ∷ 0 ∷ [])) ≡ rejects OpenFaultKind.TooLong 28 }
    ensures packed { opened 0 (guided_section lzma_guid 24 1 lzma_a) ≡ rejects OpenFaultKind.TooLong 29 }
{}
