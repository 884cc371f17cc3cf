//! Laws over the definitions of this crate. None of these functions does anything: their contracts
//! are the laws.

ghost use Rattle.std.specs.Prelude.{◌≡◌, ◌⊎◌, ℕ, List};
ghost use Rattle.fv_base.specs.Words.{IsBytes};
ghost use Rattle.fv_base.specs.declared.fault.Fault.{Fault};
ghost use Rattle.fv_file.specs.Words.{CellForm};
ghost use Rattle.fv_head.specs.declared.extent.Extent.{Extent};
ghost use Rattle.fv_tree.specs.Difference.{difference};
ghost use Rattle.fv_tree.specs.InputFaults.{IsFirstOfInput};
ghost use Rattle.fv_tree.specs.LocatedFiles.{BeginsTiled, NotTiled};
ghost use Rattle.fv_tree.specs.LostMarks.{DifferInMarksOnly, LosesMarks};
ghost use Rattle.fv_tree.specs.Meaning.{Meaning, SectionMeaning};
ghost use Rattle.fv_tree.specs.StreamInputs.{AcceptedStream, IsFirstOfStream, NotStream};
ghost use Rattle.fv_tree.specs.Unfixing.{IsUnfixed, UnfixStops};

/// An input has at most one first fault.
pub fn one_first_fault()
    ensures { (b : List ℕ) (f g : Fault) → IsFirstOfInput b f → IsFirstOfInput b g → f ≡ g }
{}

/// An input that should be a stream of sections has at most one first fault.
pub fn one_first_stream_fault()
    ensures { (b : List ℕ) (f g : Fault) → IsFirstOfStream b f → IsFirstOfStream b g → f ≡ g }
{}

/// Every input is a stream of sections, or it is not one and has a first fault, and never both. So
/// no case is missing from the faults. (PI specification, volume 3, section 3.2.4.)
pub fn every_stream()
    ensures either { (b : List ℕ) → IsBytes b
        → ((sections : List SectionMeaning) × (tail : ℕ) × AcceptedStream sections tail b) ⊎ ((f : Fault) × NotStream b f) }
    ensures never { (b : List ℕ) (sections : List SectionMeaning) (tail : ℕ) (f : Fault)
        → AcceptedStream sections tail b → NotStream b f → ⊥ }
{}

/// Bytes begin with a volume whose body is tiled by cells, or have a first fault of the header or of
/// a cell, and never both. (PI specification, volume 3, sections 3.2.1 and 3.2.3.)
pub fn every_tiling()
    ensures either { (b : List ℕ) → IsBytes b
        → ((e : Extent) × (cells : List CellForm) × BeginsTiled e cells b) ⊎ ((f : Fault) × NotTiled b f) }
    ensures never { (b : List ℕ) (e : Extent) (cells : List CellForm) (f : Fault)
        → BeginsTiled e cells b → NotTiled b f → ⊥ }
{}

/// A copy whose fixed files have lost their marks stays as it is if the marks are taken away again.
/// (PI specification, volume 3, section 3.2.3.1, FFS_ATTRIB_FIXED.)
pub fn unfixed_copies_stay()
    ensures { (b copy : List ℕ) → IsUnfixed b copy → IsUnfixed copy copy }
{}

/// Bytes have a copy without the marks of the fixed files of their volume, or there is a fault, and
/// never both. (PI specification, volume 3, section 3.2.3.1, FFS_ATTRIB_FIXED.)
pub fn every_copy()
    ensures either { (b : List ℕ) → IsBytes b → ((copy : List ℕ) × IsUnfixed b copy) ⊎ ((f : Fault) × UnfixStops b f) }
    ensures never { (b copy : List ℕ) (f : Fault) → IsUnfixed b copy → UnfixStops b f → ⊥ }
{}

/// In an unfixed copy exactly the valid fixed files of the volume have lost their marks: of such a
/// file, only bit 0x04 of its attributes and its header checksum, which is right, have changed. All
/// other bytes are the same, and so is the length. (PI specification, volume 3, section 3.2.3.1,
/// FFS_ATTRIB_FIXED.)
pub fn only_marks_are_lost()
    ensures { (b copy : List ℕ) → IsUnfixed b copy
        → (e : Extent) × (cells : List CellForm) × BeginsTiled e cells copy × LosesMarks e cells b copy }
{}

/// Two volumes that differ in the marks of fixed files only have the same unfixed copy. Two volumes
/// that have the same unfixed copy differ in these marks only. (PI specification, volume 3, section
/// 3.2.3.1, FFS_ATTRIB_FIXED.)
pub fn marks_do_not_matter()
    ensures same { (a b copy other : List ℕ) (e : Extent) (cells : List CellForm) → IsUnfixed a copy → IsUnfixed b other
        → BeginsTiled e cells copy → DifferInMarksOnly e cells a b → other ≡ copy }
    ensures differ { (a b copy : List ℕ) → IsBytes a → IsBytes b → IsUnfixed a copy → IsUnfixed b copy
        → (e : Extent) × (cells : List CellForm) × BeginsTiled e cells copy × DifferInMarksOnly e cells a b }
{}

/// The first difference of two meanings is at the same place, and of the same kind, whichever of
/// them is the first.
pub fn comparisons_agree()
    ensures { (m k : Meaning) → difference m k ≡ difference k m }
{}
