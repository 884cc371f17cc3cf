//! Laws over the definitions of this crate. None of these functions does anything: their contracts
//! are the laws.

ghost use Rattle.std.specs.Prelude.{◌≡◌, ◌≤◌, ◌⊎◌, ◌%◌, ℕ, List, length, true};
ghost use Rattle.fv_base.specs.Words.{IsBytes, IsFirstFault};
ghost use Rattle.fv_base.specs.declared.fault.Fault.{Fault};
ghost use Rattle.fv_base.specs.declared.flash.FileSystem.{FileSystem};
ghost use Rattle.fv_base.specs.declared.flash.Polarity.{Polarity};
ghost use Rattle.fv_file.specs.Cells.{CellForm, Tiles};
ghost use Rattle.fv_file.specs.FileAttributes.{is_fixed};
ghost use Rattle.fv_file.specs.FileChecks.{IsFirstCellFault, payload_at, verify_checks};
ghost use Rattle.fv_file.specs.FileHeaders.{attributes_at, head_in};
ghost use Rattle.fv_file.specs.HeaderReads.{BeginsFile};
ghost use Rattle.fv_file.specs.LostMarks.{but_for_mark, DifferInMarks, TilesUnmarked, Unmarkable, UnmarkingStops};
ghost use Rattle.fv_file.specs.Unmarking.{unmarked, Unmarks};
ghost use Rattle.fv_file.specs.declared.head.FileHead.{FileHead};
ghost use Rattle.fv_file.specs.declared.state.FileState.{FileState};

/// Cells tile a body whose length is a multiple of 8, or the body has a first fault, and never both.
/// (PI specification, volume 3, sections 3.2.2 and 3.2.3.)
pub fn every_body()
    ensures either { (s : FileSystem) (p : Polarity) (first : ℕ) (body : List ℕ) → length body % 8 ≡ 0
        → ((cells : List CellForm) × Tiles s p first cells body) ⊎ ((f : Fault) × IsFirstCellFault s p first body f) }
    ensures never { (s : FileSystem) (p : Polarity) (first : ℕ) (body : List ℕ) (cells : List CellForm) (f : Fault)
        → Tiles s p first cells body → IsFirstCellFault s p first body f → ⊥ }
{}

/// Bytes begin with a valid file or a pad, or a check of the file has the first fault, and never
/// both. (PI specification, volume 3, section 3.2.3.1.)
pub fn every_file()
    ensures either { (s : FileSystem) (p : Polarity) (b : List ℕ)
        → ((head : FileHead) × BeginsFile s p head b) ⊎ ((f : Fault) × IsFirstFault (verify_checks s p b) f) }
    ensures never { (s : FileSystem) (p : Polarity) (b : List ℕ) (head : FileHead) (f : Fault)
        → BeginsFile s p head b → IsFirstFault (verify_checks s p b) f → ⊥ }
{}

/// The marks of all fixed files can be taken away from a body whose length is a multiple of 8, so
/// that cells tile it; or, after some of these marks were taken away, the body has a first fault
/// other than Fixed, and never both. (PI specification, volume 3, section 3.2.3.1,
/// `FFS_ATTRIB_FIXED`.)
pub fn every_marked_body()
    ensures either { (s : FileSystem) (p : Polarity) (first : ℕ) (body : List ℕ) → length body % 8 ≡ 0
        → Unmarkable s p first body ⊎ ((f : Fault) × UnmarkingStops s p first body f) }
    ensures never { (s : FileSystem) (p : Polarity) (first : ℕ) (body : List ℕ) (f : Fault)
        → Unmarkable s p first body → UnmarkingStops s p first body f → ⊥ }
{}

/// If the marks of all fixed files were taken away from a body, exactly the valid fixed files have
/// lost their marks: cell by cell, the bytes of such a file are the same except for bit 0x04 of its
/// attributes and its header checksum, and the bytes of any other cell are the same. (PI
/// specification, volume 3, section 3.2.3.1, `FFS_ATTRIB_FIXED`.)
pub fn only_marks_are_lost()
    ensures { (s : FileSystem) (p : Polarity) (first : ℕ) (places body o : List ℕ) (cells : List CellForm) → length body % 8 ≡ 0
        → Unmarks s p first places body o → Tiles s p first cells o → TilesUnmarked s p first cells body o }
{}

/// Two bodies that differ in the marks of fixed files only have the same bytes after all these marks
/// were taken away. Two bodies that have the same bytes then differ in these marks only. (PI
/// specification, volume 3, section 3.2.3.1, `FFS_ATTRIB_FIXED`.)
pub fn marks_do_not_matter()
    ensures same { (s : FileSystem) (p : Polarity) (first : ℕ) (places others a b o x : List ℕ) (cells ds : List CellForm)
        → length a % 8 ≡ 0 → length b % 8 ≡ 0
        → Unmarks s p first places a o → Tiles s p first cells o → Unmarks s p first others b x → Tiles s p first ds x
        → DifferInMarks p cells a b → x ≡ o }
    ensures differ { (s : FileSystem) (p : Polarity) (first : ℕ) (places others a b o : List ℕ) (cells : List CellForm)
        → length a % 8 ≡ 0 → length b % 8 ≡ 0 → IsBytes a → IsBytes b
        → Unmarks s p first places a o → Unmarks s p first others b o → Tiles s p first cells o
        → DifferInMarks p cells a b }
{}

/// A file that has lost its mark has the same fields and data as before, except for bit 0x04 of its
/// attributes and its header checksum. (PI specification, volume 3, section 3.2.3.1,
/// `FFS_ATTRIB_FIXED`.)
pub fn marked_files_keep_fields()
    ensures fields { (state : FileState) (x : List ℕ) → 24 ≤ length x → is_fixed (attributes_at x) ≡ true
        → head_in state (unmarked 0 x) ≡ but_for_mark (head_in state x) }
    ensures data { (x : List ℕ) → 24 ≤ length x → is_fixed (attributes_at x) ≡ true → payload_at (unmarked 0 x) ≡ payload_at x }
{}
