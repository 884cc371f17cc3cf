//! Worked readings: small inputs, byte by byte, with their meaning or their fault. They show that
//! volumes are accepted, and that each fault of an input can be the fault with which the input is
//! rejected. None of these functions does anything: their contracts are the readings.

ghost use Rattle.std.specs.Prelude.{◌∷◌, ◌++◌, [], None, replicate, take};
ghost use Rattle.fv_base.specs.Words.{outer_fault};
ghost use Rattle.fv_tree.specs.Words.{Accepted, NoFiles, Volume, top_name};
ghost use Rattle.fv_canon.specs.Headline.{NormalisesTo};
ghost use Rattle.fv_canon.specs.InputRejections.{Rejects};
ghost use Rattle.fv_canon.specs.WorkedInputs.{changed, empty_volume, fault_at, file_bytes, file_header_bytes};
ghost use Rattle.fv_canon.specs.WorkedInputs.{head, long_header, misaligned_top, nine_groups, no_room_for_pad, smallest_volume};
ghost use Rattle.fv_canon.specs.WorkedInputs.{volume_with};

use fv_base::FaultKind;

/// The smallest volume, which is a header of 72 bytes, is accepted as a volume without files. So is
/// a volume of 128 bytes whose body is free space, which is its own canonical image. (PI
/// specification, volume 3, section 3.2.1.1.)
pub fn accepted_volumes()
    ensures smallest { Accepted smallest_volume (Volume (head 72 None) NoFiles) }
    ensures empty { Accepted empty_volume (Volume (head 128 None) NoFiles) }
    ensures image { NormalisesTo empty_volume empty_volume }
{}

/// Inputs with a fault of the header, and the fault with which each of them is rejected. (PI
/// specification, volume 3, section 3.2.1.)
pub fn header_faults()
    ensures truncated { Rejects (take 55 empty_volume) (outer_fault FaultKind.Truncated 55) }
    ensures short { Rejects (take 100 empty_volume) (outer_fault FaultKind.Truncated 100) }
    ensures signature { Rejects (changed 43 (0x49 ∷ []) empty_volume) (outer_fault FaultKind.Signature 40) }
    ensures file_system { Rejects (changed 16 (0x79 ∷ []) empty_volume) (outer_fault FaultKind.FileSystem 16) }
    ensures revision { Rejects (changed 55 (1 ∷ []) empty_volume) (outer_fault FaultKind.Revision 55) }
    ensures header_length { Rejects (changed 48 (0x3c ∷ []) empty_volume) (outer_fault FaultKind.HeaderLength 48) }
    ensures header_sum { Rejects (changed 50 (0xcf ∷ []) empty_volume) (outer_fault FaultKind.HeaderSum 0) }
    ensures block_map { Rejects (changed 56 (2 ∷ []) (changed 50 (0xcd ∷ []) empty_volume)) (outer_fault FaultKind.BlockMap 56) }
    ensures length { Rejects long_header (outer_fault FaultKind.Length 32) }
    ensures ext_header { Rejects (changed 50 (0x8e ∷ 0xf5 ∷ 0x40 ∷ []) empty_volume) (outer_fault FaultKind.ExtHeader 52) }
{}

/// Inputs with a fault of a cell, and the fault with which each of them is rejected. (PI
/// specification, volume 3, sections 3.2.2 and 3.2.3.)
pub fn cell_faults()
    ensures state { Rejects (volume_with (file_bytes (replicate 16 0x0a) 0x47 0xaa 1 0 24 0xb8)) (outer_fault FaultKind.FileState 95) }
    ensures header_sum { Rejects (volume_with (file_header_bytes 0x0a 0x48 0xaa 1 0 24)) (outer_fault FaultKind.FileHeaderSum 72) }
    ensures size { Rejects (volume_with (file_header_bytes 0x0a 0x48 0xaa 1 0 23)) (outer_fault FaultKind.FileSize 92) }
    ensures large { Rejects (volume_with (file_header_bytes 0x0a 0x47 0xaa 1 1 24)) (outer_fault FaultKind.LargeFile 91) }
    ensures file_sum { Rejects (volume_with (file_header_bytes 0x0a 0x47 0xab 1 0 24)) (outer_fault FaultKind.FileSum 89) }
    ensures fixed { Rejects (volume_with (file_header_bytes 0x0a 0x43 0xaa 1 4 24)) (outer_fault FaultKind.Fixed 91) }
    ensures free_space { Rejects (changed 127 (0 ∷ []) empty_volume) (outer_fault FaultKind.FreeSpace 127) }
{}

/// Inputs with a fault of the names of files or of sections, and the fault with which each of them
/// is rejected. (PI specification, volume 3, sections 3.2.1.3, 3.2.3 and 3.2.4.)
pub fn file_faults()
    ensures duplicate { Rejects (volume_with (file_header_bytes 0x0a 0x47 0xaa 1 0 24 ++ file_header_bytes 0x0a 0x47 0xaa 1 0 24))
        (outer_fault FaultKind.DuplicateName 96) }
    ensures top { Rejects (volume_with (file_bytes top_name 0xf2 0xaa 1 0 24 0xf8)) (outer_fault FaultKind.TopFile 72) }
    ensures section_size { Rejects (volume_with (file_header_bytes 0x0a 0x42 0xaa 2 0 28 ++ (3 ∷ 0 ∷ 0 ∷ 0x19 ∷ [])))
        (outer_fault FaultKind.SectionSize 96) }
    ensures section_tail { Rejects (volume_with (file_header_bytes 0x0a 0x40 0xaa 2 0 30 ++ (4 ∷ 0 ∷ 0 ∷ 0x19 ∷ 0 ∷ 0 ∷ [])))
        (outer_fault FaultKind.SectionTail 100) }
    ensures depth { Rejects nine_groups (fault_at FaultKind.Depth 128 8) }
{}

/// Inputs that are volumes but are rejected, and the fault of each of them: a byte follows the
/// volume, or the volume does not fit. (PI specification, volume 3, sections 3.2.1.2 and 3.2.1.3.)
pub fn whole_input_faults()
    ensures length { Rejects (empty_volume ++ (0xff ∷ [])) (outer_fault FaultKind.Length 128) }
    ensures no_room { Rejects no_room_for_pad (outer_fault FaultKind.NoRoom 0) }
    ensures top_alignment { Rejects misaligned_top (outer_fault FaultKind.TopAlignment 0) }
{}
