//! The canonical image of a volume.

ghost use Rattle.std.specs.Prelude.{◌≡◌, ◌⊎◌, ℕ, List, IfOk, IfErr, OnOk, OnErr, true};
ghost use Rattle.std.specs.Io.KnownBytes.{Appends};
ghost use Rattle.fv_base.specs.Words.{OrMemory, out_of_memory, inner_of, has_erred, WriteStops};
ghost use Rattle.fv_canon.specs.Image.{IsImage};
ghost use Rattle.fv_canon.specs.Layouts.{Fits};
ghost use Rattle.fv_canon.specs.LayoutFaults.{Unfit};
ghost use Rattle.fv_canon.specs.LayoutForms.{IsLayout};
ghost use Rattle.fv_tree.specs.Words.{Accepted, IsMeaning, Meaning};

use crate::laid_volume::Layout;
use crate::layout_walk::layout;
use crate::parts::put_laid_volume;
use fv_base::{ByteList, Fault, ListSink, Port, Sink, WriteSink};
use fv_tree::VolumeView;
use std::alloc::Global;
use std::io::Write;

/// Puts the canonical image of the view into a sink, in one walk that takes no memory. `layout`
/// must be the layout of the view. (PI specification, volume 3, section 3.2.)
pub fn put_canonical<S: Sink>(view: &VolumeView<'_>, layout: &Layout, out: &mut S)
    requires { IsLayout view.now layout.now }
    ensures { (image : List ℕ) × IsImage view.now image × S.takes out.old image out.new }
{
    put_laid_volume(view, layout.starts(), out);
}

/// Writes the canonical image of the view to a port, in one walk that takes no memory. `layout`
/// must be the layout of the view. (PI specification, volume 3, section 3.2.)
///
/// # Errors
///
/// WriteFault at the number of bytes written in this call, if a write fails or takes no byte.
/// Exactly that many bytes of the image were written.
pub fn write_canonical<W: Write>(
    view: &VolumeView<'_>,
    layout: &Layout,
    writer: &mut Port<W>,
) -> Result<(), Fault>
    requires { IsLayout view.now layout.now }

    // The image was written.
    ensures ok { OnOk result ((image : List ℕ) × IsImage view.now image
        × Appends (W.contents (inner_of writer.old)) (W.contents (inner_of writer.new)) image) }

    // The first bytes of the image were written, as many as the fault's offset says.
    ensures err { IfErr result (λ f. (image : List ℕ) × IsImage view.now image
        × WriteStops (W.contents (inner_of writer.old)) (W.contents (inner_of writer.new)) image f) }

    // If the result is Ok, the port's error flag is as it was before. If an error is returned, the
    // flag is set.
    ensures fine { OnOk result (has_erred writer.new ≡ has_erred writer.old) }
    ensures erred { OnErr result (has_erred writer.new ≡ true) }
{
    let mut out = WriteSink::new(writer);
    // The volume was read (`known`), so its image is as long as the volume, and the number of bytes
    // that were written fits into the offset of a fault.
    view.known();
    put_canonical(view, layout, &mut out);
    out.outcome()
}

/// Returns the canonical image of the view. Memory for the full length is reserved once. (PI
/// specification, volume 3, section 3.2.)
///
/// # Errors
///
/// The errors of `layout`, and OutOfMemory.
pub fn canonical(alloc: Global, view: &VolumeView<'_>) -> Result<ByteList, Fault>
    // The result is the image of the view's meaning, and no other bytes are its image.
    ensures image { IfOk result (λ bytes. IsImage view.now bytes) }
    ensures only { (other : List ℕ) → IsImage view.now other → IfOk result (λ bytes. bytes ≡ other) }

    // The result is a volume with this meaning. The result is not the image of any other meaning
    // that some bytes have.
    ensures denotes { IfOk result (λ bytes. Accepted bytes view.now) }
    ensures meaning { IfOk result (λ bytes. (m : Meaning) → IsMeaning m → IsImage m bytes → m ≡ view.now) }

    // Any error other than OutOfMemory is the fault of the first volume whose own files cannot be
    // placed.
    ensures err { IfErr result (OrMemory (Unfit view.now 0)) }

    // If the volume fits, the only error is OutOfMemory.
    ensures fits { Fits view.now → IfErr result (λ f. f ≡ out_of_memory) }
{
    let places = layout(alloc, view)?;
    let mut out = ListSink::with_room(alloc, view.head().length() as usize)?;
    put_canonical(view, &places, &mut out);
    out.finish()
}
