//! Laws over the definitions of this crate. None of these functions does anything: their contracts
//! are the laws.

ghost use Rattle.std.specs.Prelude.{◌≡◌, ◌≢◌, ℕ, ◌%◌, List, sum};
ghost use Rattle.fv_base.specs.declared.fault.Fault.{Fault};
ghost use Rattle.fv_base.specs.declared.fault.FaultKind.TheVariants as kinds;
ghost use Rattle.fv_marks.specs.LostMarks.{StreamLosesMarks, VolumeLosesMarks};
ghost use Rattle.fv_tree.specs.Words.{IsFirstOfInput, IsFirstOfStream, IsFirstOfVolume};

/// After the marks of fixed files were taken away at every depth, the first fault of the bytes, if
/// they have one, is not Fixed. This is true of bytes that should begin with a volume, of an input
/// that should be a volume, and of an input that should be a stream of sections. (PI specification,
/// volume 3, section 3.2.3.1, `FFS_ATTRIB_FIXED`.)
pub fn no_file_stays_fixed()
    ensures volume { (b o : List ℕ) (f : Fault) → VolumeLosesMarks b o → IsFirstOfVolume o f → f.kind ≢ kinds.Fixed }
    ensures input { (b o : List ℕ) (f : Fault) → VolumeLosesMarks b o → IsFirstOfInput o f → f.kind ≢ kinds.Fixed }
    ensures stream { (b o : List ℕ) (f : Fault) → StreamLosesMarks b o → IsFirstOfStream o f → f.kind ≢ kinds.Fixed }
{}

/// The bytes have the same sum modulo 256 after the marks of fixed files were taken away. So a file
/// checksum over them stays right. (PI specification, volume 3, section 3.2.3.1,
/// `IntegrityCheck.Checksum.File`.)
pub fn sums_stay()
    ensures volume { (b o : List ℕ) → VolumeLosesMarks b o → sum o % 256 ≡ sum b % 256 }
    ensures stream { (b o : List ℕ) → StreamLosesMarks b o → sum o % 256 ≡ sum b % 256 }
{}

/// Bytes lose the marks of fixed files in one way only, so two calls give the same bytes. (PI
/// specification, volume 3, section 3.2.3.1, `FFS_ATTRIB_FIXED`.)
pub fn marks_are_lost_in_one_way()
    ensures volume { (b o x : List ℕ) → VolumeLosesMarks b o → VolumeLosesMarks b x → x ≡ o }
    ensures stream { (b o x : List ℕ) → StreamLosesMarks b o → StreamLosesMarks b x → x ≡ o }
{}

/// Bytes that have lost the marks of fixed files at every depth stay as they are if the marks are
/// taken away again. (PI specification, volume 3, section 3.2.3.1, `FFS_ATTRIB_FIXED`.)
pub fn unmarked_bytes_stay()
    ensures volume { (b o : List ℕ) → VolumeLosesMarks b o → VolumeLosesMarks o o }
    ensures stream { (b o : List ℕ) → StreamLosesMarks b o → StreamLosesMarks o o }
{}
