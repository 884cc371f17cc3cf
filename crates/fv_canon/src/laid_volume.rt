//! The layout of a volume, and a volume with its layout.

ghost use Rattle.std.specs.Prelude.{◌≡◌, ◌≢◌, ◌⊎◌, ◌++◌, ℕ, List, slice_get, take, drop, IfOk, IfErr};
ghost use Rattle.fv_base.specs.Words.{OrMemory, out_of_memory};
ghost use Rattle.fv_head.specs.Words.{BeginsWithHeader};
ghost use Rattle.fv_canon.specs.Headline.{NormalisesTo};
ghost use Rattle.fv_canon.specs.Image.{IsImage};
ghost use Rattle.fv_canon.specs.InputRejections.{Rejects};
ghost use Rattle.fv_canon.specs.LayoutForms.{IsLayout};
ghost use Rattle.fv_tree.specs.Words.{Accepted, Meaning};

use crate::layout_walk::layout;
use fv_base::{Fault, FaultKind};
use fv_tree::{VolumeView, whole_volume};
use std::alloc::Global;
use std::marker::Model;

/// The layout of a canonical image: the starts of all its files. The starts of the volume's own
/// files come first, in order. The starts of the files of the volumes inside it follow, in the
/// order of these volumes; each volume's own files come before the files of the volumes inside it.
/// A start counts bytes from the start of the file's own volume. Contracts see two parts, `own` and
/// `inner`. (PI specification, volume 3, section 3.2.3.1.)
#[derive(Drop)]
pub struct Layout {
    /// All starts, in this order.
    starts: Vec<u64>,
    /// The number of the volume's own files, whose starts come first.
    own: usize,
}

impl Model for Layout {
    ghost use Rattle.std.specs.Prelude.{take, drop};
    ghost use Rattle.fv_canon.specs.LayoutForms.{LayoutParts};

    ghost Value = { LayoutParts };

    ghost view = { λ l. record { own = take l.own l.starts.items; inner = drop l.own l.starts.items } };
}

impl Layout {
    // Returns the layout of a volume with `own` files of its own.
    pub(crate) fn new(starts: Vec<u64>, own: usize) -> Layout
        ensures own { result.own ≡ take own starts.items }
        ensures inner { result.inner ≡ drop own starts.items }
    {
        Layout { starts, own }
    }

    /// Returns the start of the volume's own file number `index`, counted from 0 in the order of
    /// the files, in bytes from the volume's start. Returns None past the last file.
    pub fn start(&self, index: u32) -> Option<u64>
        ensures { result ≡ slice_get self.now.own index }
    {
        let at = index as usize;
        if at < self.own {
            self.starts.get(at).copied()
        } else {
            None
        }
    }

    /// Returns all starts: first the starts of the volume's own files, then the starts of the files
    /// of the volumes inside it.
    pub fn starts(&self) -> &[u64]
        ensures { result.now ≡ self.now.own ++ self.now.inner }
    {
        self.starts.as_slice()
    }
}

/// A volume with its layout. Contracts see the meaning of the volume. (PI specification, volume 3,
/// section 3.2.)
#[derive(Drop)]
pub struct LaidVolume<'a> {
    volume: VolumeView<'a>,
    places: Layout,
}

impl<'a> Model for LaidVolume<'a> {
    ghost use Rattle.fv_canon.specs.LayoutForms.{IsLayout};
    ghost use Rattle.fv_tree.specs.Words.{Meaning};
    ghost use Rattle.fv_tree.specs.inner.Codes.{volume_code};

    ghost Value = { Meaning };

    ghost coded = { volume_code };

    ghost view = { λ l. l.volume };

    ghost invariant = { λ l. IsLayout l.volume l.places };
}

impl<'a> LaidVolume<'a> {
    /// Returns the volume.
    pub fn volume(&self) -> &VolumeView<'a>
        ensures { result.now ≡ self.now }
    {
        &self.volume
    }

    /// Returns the layout of the volume's canonical image.
    pub fn layout(&self) -> &Layout
        ensures { IsLayout self.now result.now }
    {
        &self.places
    }
}

/// Reads the input as a volume with no bytes after it, and lays it out. `put_canonical` then puts
/// the canonical image. (PI specification, volume 3, section 3.2.)
///
/// # Errors
///
/// The first fault in this order: the faults of `read_volume`, Length at FvLength if bytes follow
/// the volume, and the faults of `layout`. OutOfMemory.
pub fn lay_out_volume(alloc: Global, input: &[u8]) -> Result<LaidVolume<'_>, Fault>
    // The input is a volume with this meaning, and with no other.
    ensures found { IfOk result (λ laid. Accepted input.now laid) }
    ensures only { IfOk result (λ laid. (m : Meaning) → Accepted input.now m → m ≡ laid) }

    // The volume has a canonical image.
    ensures image { IfOk result (λ laid. (image : List ℕ) × IsImage laid image) }

    // Any error other than OutOfMemory is the first fault of an input that is not a volume, or the
    // fault of the first volume in the input whose own files cannot be placed.
    ensures err { IfErr result (OrMemory (Rejects input.now)) }

    // If the input has an image, the only error is OutOfMemory.
    ensures fits { (image : List ℕ) → NormalisesTo input.now image → IfErr result (λ f. f ≡ out_of_memory) }

    // Memory runs out only if the input begins with the header of a volume.
    ensures memory { IfErr result (λ f. f ≡ out_of_memory → BeginsWithHeader input.now) }

    // ReadFault and WriteFault are never returned.
    ensures kind { IfErr result (λ f. (f.kind ≢ FaultKind.ReadFault) × (f.kind ≢ FaultKind.WriteFault)) }
{
    let volume = whole_volume(alloc, input)?;
    let places = layout(alloc, &volume)?;
    Ok(LaidVolume { volume, places })
}
