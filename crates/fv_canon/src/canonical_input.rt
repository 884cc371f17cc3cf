//! Checks whether bytes are a canonical image: the image of a view, or their own image. The bytes
//! are compared with the bytes that a walk over the view puts.

ghost use Rattle.std.specs.Prelude.{◌≡◌, ◌≢◌, ◌↔◌, ◌⊎◌, [], IfOk, IfErr, IsTrue, true};
ghost use Rattle.fv_base.specs.Words.{OrMemory, out_of_memory};
ghost use Rattle.fv_canon.specs.Image.{IsImage};
ghost use Rattle.fv_canon.specs.LayoutForms.{AreAllStarts};
ghost use Rattle.fv_canon.specs.inner.ImageOf.{image_of};
ghost use Rattle.fv_canon.specs.inner.Matching.{MatchTakes, matches_by};
ghost use Rattle.fv_head.specs.Words.{BeginsWithHeader};
ghost use Rattle.fv_tree.specs.Words.{Accepted, NotRead, Meaning, files_of};

use crate::image_walk::put_image;
use crate::layout_walk::layout;
use fv_base::{Fault, FaultKind, Sink};
use fv_tree::{VolumeView, whole_volume};
use std::alloc::Global;

// A sink that compares expected bytes with the bytes that are put into it. As long as the two
// agree, the bytes that are put are removed from the start of the expected bytes.
#[derive(Drop)]
struct MatchSink<'a> {
    // The expected bytes that have not been put yet.
    rest: &'a [u8],
    // Whether all bytes that were put were as expected.
    same: bool,
}

impl<'a> Sink for MatchSink<'a> {
    ghost takes = { MatchTakes (λ s. s.rest.now) (λ s. s.same) };

    ghost laws = { matches_by (λ s. s.rest.now) (λ s. s.same) };

    fn put(&mut self, bytes: &[u8]) {
        if self.same {
            match self.rest.strip_prefix(bytes) {
                Some(rest) => self.rest = rest,
                None => self.same = false,
            }
        }
    }
}

// Returns whether the bytes are the canonical image of the view, given the starts of its layout. No
// image is made.
fn is_image(view: &VolumeView<'_>, starts: &[u64], bytes: &[u8]) -> bool
    requires { AreAllStarts view.now starts.now }
    ensures { IsTrue result ↔ (bytes.now ≡ image_of view.now starts.now) }
{
    let mut out = MatchSink {
        rest: bytes,
        same: true,
    };
    put_image(&mut out, view, starts);
    out.same && out.rest.is_empty()
}

/// Returns whether the bytes are the canonical image of the view. Returns false if the view does
/// not fit. No image is made. (PI specification, volume 3, section 3.2.)
///
/// # Errors
///
/// OutOfMemory, only if the volume has a file.
pub fn is_canonical_image(alloc: Global, view: &VolumeView<'_>, bytes: &[u8]) -> Result<bool, Fault>
    // The result is true exactly if the bytes are the image of the view's meaning.
    ensures ok { IfOk result (λ t. (t ≡ true) ↔ IsImage view.now bytes.now) }

    // The only error is OutOfMemory.
    ensures err { IfErr result (λ f. f ≡ out_of_memory) }

    // Memory runs out only if the volume has a file.
    ensures memory { IfErr result (λ f. f ≡ out_of_memory → files_of view.now ≢ []) }
{
    // If a volume that was read fits, the walk puts its image. If it does not fit, it has no image.
    view.known();
    match layout(alloc, view) {
        Ok(places) => Ok(is_image(view, places.starts(), bytes)),
        Err(fault) => {
            if fault.kind == FaultKind::OutOfMemory {
                return Err(fault);
            }
            Ok(false)
        }
    }
}

/// Returns whether the input is a volume that is its own canonical image. Returns false if the
/// volume does not fit. No image is made. (PI specification, volume 3, section 3.2.)
///
/// # Errors
///
/// The first fault in this order: the faults of `read_volume`, and Length at FvLength if bytes
/// follow the volume. OutOfMemory.
pub fn is_canonical(alloc: Global, input: &[u8]) -> Result<bool, Fault>
    // The input is a volume, and the result is true exactly if the input is the image of its own
    // meaning.
    ensures ok { IfOk result (λ t. (m : Meaning) × Accepted input.now m × ((t ≡ true) ↔ IsImage m input.now)) }

    // Any error other than OutOfMemory is the first fault of an input that is not a volume.
    ensures err { IfErr result (OrMemory (NotRead input.now)) }

    // Memory runs out only if the input begins with the header of a volume.
    ensures memory { IfErr result (λ f. f ≡ out_of_memory → BeginsWithHeader input.now) }
{
    let view = whole_volume(alloc, input)?;
    is_canonical_image(alloc, &view, input)
}
