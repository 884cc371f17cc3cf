//! Where the volumes in a stream of sections place their files.

ghost use Rattle.std.specs.Prelude.{◌≡◌, ◌≢◌, [], Any, IfOk, IfErr};
ghost use Rattle.fv_base.specs.Words.{OrMemory, out_of_memory};
ghost use Rattle.fv_canon.specs.LayoutFaults.{AllFit, FirstUnplaced};
ghost use Rattle.fv_canon.specs.LayoutForms.{StartsOfEach};
ghost use Rattle.fv_canon.specs.Layouts.{AreStarts};
ghost use Rattle.fv_tree.specs.Words.{files_of, sections_from, volumes_in_sections};

use crate::layout_walk::starts_of;
use fv_base::Fault;
use fv_rows::TreeWalk;
use fv_tree::StreamView;
use std::alloc::Global;

/// Returns the starts of the files of the volumes in a stream of sections, volume after volume. (PI
/// specification, volume 3, section 3.2.3.1.)
///
/// # Errors
///
/// The fault of the first volume in the stream whose own files cannot be placed, at offset 0 and
/// with the depth of that volume, which is 1 if the volume is the body of one of the stream's own
/// sections. OutOfMemory, only if a volume in the stream has a file.
pub fn lay_out_stream(alloc: Global, stream: &StreamView<'_>) -> Result<Vec<u64>, Fault>
    // The result is exactly these starts, with none after them.
    ensures ok { IfOk result
        (λ starts. StartsOfEach AreStarts (volumes_in_sections (sections_from stream.now.0)) starts.items) }

    // Any error other than OutOfMemory is the fault of the first volume whose own files cannot be
    // placed.
    ensures err { IfErr result (OrMemory (FirstUnplaced (volumes_in_sections (sections_from stream.now.0)) 0)) }

    // If all volumes in the stream fit, the only error is OutOfMemory.
    ensures fits { AllFit (volumes_in_sections (sections_from stream.now.0)) → IfErr result (λ f. f ≡ out_of_memory) }

    // Memory runs out only if a volume in the stream has a file.
    ensures memory { IfErr result (λ f. f ≡ out_of_memory
        → Any (λ v. files_of v.volume ≢ []) (volumes_in_sections (sections_from stream.now.0))) }
{
    starts_of(alloc, TreeWalk::of_stream(stream))
}
