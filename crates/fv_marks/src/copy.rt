//! Copies of bytes without the marks of fixed files.

ghost use Rattle.std.specs.Prelude.{◌≡◌, ◌≤◌, ℕ, List, IfErr, IfOk, length, take};
ghost use Rattle.fv_base.specs.Words.{depth_limit, out_of_memory};
ghost use Rattle.fv_marks.specs.LostMarks.{OnlyMarksChange, StreamLosesMarks, VolumeLosesMarks};
ghost use Rattle.fv_tree.specs.Words.{Denotes, Meaning, SectionMeaning, Stream};

use crate::tree_marks::{take_marks, take_marks_of_sections};
use fv_base::Fault;
use std::alloc::Global;

/// Returns a copy of the bytes in which the volume at their start has lost the marks of fixed files
/// at every depth, as by `take_marks`. The copy has as many bytes. (PI specification, volume 3,
/// section 3.2.3.1, `FFS_ATTRIB_FIXED`.)
///
/// # Errors
///
/// OutOfMemory at 0.
pub fn without_marks(alloc: Global, bytes: &[u8]) -> Result<Vec<u8>, Fault>
    // The copy is the bytes without the marks.
    ensures lost { IfOk result (λ copy. VolumeLosesMarks bytes.now copy.items) }

    // Only marks were taken away, and the copy has as many bytes.
    ensures only { IfOk result (λ copy. OnlyMarksChange bytes.now copy.items) }
    ensures length { IfOk result (λ copy. length copy.items ≡ length bytes.now) }

    // The copy of a volume that is accepted is the same.
    ensures same { IfOk result (λ copy. (n : ℕ) (m : Meaning) → n ≤ length bytes.now → Denotes depth_limit (take n bytes.now) m
        → copy.items ≡ bytes.now) }

    // The only error is OutOfMemory.
    ensures memory { IfErr result (λ f. f ≡ out_of_memory) }
{
    let mut copy = Vec::from_slice(alloc, bytes)?;
    take_marks(alloc, &mut copy)?;
    Ok(copy)
}

/// Returns a copy of a stream of sections in which the volumes have lost the marks of fixed files at
/// every depth, as by `take_marks_of_sections`. The copy has as many bytes. (PI specification,
/// volume 3, sections 3.2.3.1 and 3.2.4.)
///
/// # Errors
///
/// OutOfMemory at 0.
pub fn sections_without_marks(alloc: Global, bytes: &[u8]) -> Result<Vec<u8>, Fault>
    // The copy is the stream without the marks.
    ensures lost { IfOk result (λ copy. StreamLosesMarks bytes.now copy.items) }

    // Only marks were taken away, and the copy has as many bytes.
    ensures only { IfOk result (λ copy. OnlyMarksChange bytes.now copy.items) }
    ensures length { IfOk result (λ copy. length copy.items ≡ length bytes.now) }

    // The copy of a stream that is accepted is the same.
    ensures same { IfOk result (λ copy. (sections : List SectionMeaning) (tail : ℕ) → Stream depth_limit sections tail bytes.now
        → copy.items ≡ bytes.now) }

    // The only error is OutOfMemory.
    ensures memory { IfErr result (λ f. f ≡ out_of_memory) }
{
    let mut copy = Vec::from_slice(alloc, bytes)?;
    take_marks_of_sections(alloc, &mut copy)?;
    Ok(copy)
}
