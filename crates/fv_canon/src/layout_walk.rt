//! Lays out a volume: finds the starts of its files, and of the files of the volumes inside it.
//! Also skips, in a list of such starts, the starts of the files of some volumes.

ghost use Rattle.std.specs.Prelude.{◌≡◌, ◌≢◌, ◌<◌, ◌≤◌, ◌⊎◌, ◌+◌, ◌++◌, ℕ, List, [], All, drop, length, take, get_or, IfOk, IfErr};
ghost use Rattle.fv_base.specs.Words.{OrMemory, out_of_memory};
ghost use Rattle.fv_head.specs.Words.{first_edge};
ghost use Rattle.fv_canon.specs.LayoutFaults.{layout_fault, FirstUnplaced, Unfit, UnfitHere};
ghost use Rattle.fv_canon.specs.Layouts.{placement_item, placement_items, AreStarts, Fits};
ghost use Rattle.fv_canon.specs.LayoutForms.{BeginsWithStarts, StartsOfEach, AreAllStarts, IsLayout};
ghost use Rattle.fv_tree.specs.Words.{head_of, files_of, length_of};
ghost use Rattle.fv_rows.specs.inner.RowVolumes.{volumes_of};
ghost use Rattle.fv_canon.specs.inner.ImageOf.{starts_in};
ghost use Rattle.fv_placement.specs.Words.{Placement, IsLawfulItem};

use crate::laid_volume::Layout;
use crate::pads_and_headers::header_len_for;
use fv_base::{Align, Fault, FaultKind, Place};
use fv_head::first_edge;
use fv_placement::{PlacementItem, first_starts, is_top_misaligned};
use fv_rows::{Part, TreeWalk};
use fv_tree::{FileView, VOLUME_TOP_FILE, VolumeView};
use std::alloc::Global;

/// Returns the layout of the view's canonical image: where its files, and the files of the volumes
/// inside it, begin. (PI specification, volume 3, section 3.2.3.1.)
///
/// # Errors
///
/// The fault of the first volume whose own files cannot be placed, at offset 0 and with the depth
/// of that volume; the outer volume comes before the volumes inside it. The fault is TopAlignment
/// if the only possible start of the volume top file is not a multiple of 8, or if its data are not
/// aligned there. Otherwise it is NoRoom: the files cannot be placed in their order. OutOfMemory,
/// only if the volume has a file.
pub fn layout(alloc: Global, view: &VolumeView<'_>) -> Result<Layout, Fault>
    // The files are in their first placement at every level.
    ensures layout { IfOk result (IsLayout view.now) }

    // There is no other layout.
    ensures only { IfOk result (λ l. (starts : List ℕ) → AreAllStarts view.now starts → starts ≡ l.own ++ l.inner) }

    // Every other placement of the volume's own files has a larger start at the first file where
    // the two differ.
    ensures least { IfOk result (λ l. (others : List ℕ) (i : ℕ)
        → Placement (length_of view.now) (first_edge (head_of view.now) (head_of view.now).ext) (placement_items view.now) others
        → take i others ≡ take i l.own → get_or l.own i 0 ≤ get_or others i 0) }

    // Any error other than OutOfMemory is the fault of the first volume whose own files cannot be
    // placed.
    ensures err { IfErr result (OrMemory (Unfit view.now 0)) }

    // If the volume fits, its layout is returned, unless memory runs out.
    ensures fits { Fits view.now → IfErr result (λ f. f ≡ out_of_memory) }

    // Memory runs out only if the volume has a file.
    ensures memory { IfErr result (λ f. f ≡ out_of_memory → files_of view.now ≢ []) }
{
    let own = view.files().len();
    let starts = starts_of(alloc, TreeWalk::of(view))?;
    Ok(Layout::new(starts, own))
}

// Returns the starts of the files of the volumes among some rows, volume after volume.
pub(crate) fn starts_of(alloc: Global, rows: TreeWalk<'_, '_>) -> Result<Vec<u64>, Fault>
    ensures ok { IfOk result (λ starts. StartsOfEach AreStarts (volumes_of rows.entry) starts.items) }
    ensures err { IfErr result (OrMemory (FirstUnplaced (volumes_of rows.entry) 0)) }
    ensures memory { IfErr result (λ f. f ≡ out_of_memory → 0 < starts_in (volumes_of rows.entry)) }
{
    let mut starts = Vec::new(alloc);
    for row in rows {
        if let Part::Volume(volume) = row.part {
            let own = own_starts(alloc, volume, row.nesting)?;
            starts.extend_from_slice(own.as_slice())?;
        }
    }
    Ok(starts)
}

// Returns the part of `starts` that follows the starts of the files of the volumes among some rows.
pub(crate) fn skip_starts<'s>(rows: TreeWalk<'_, '_>, starts: &'s [u64]) -> &'s [u64]
    requires laid { BeginsWithStarts (volumes_of rows) starts.now }
    ensures { result.now ≡ drop (starts_in (volumes_of rows.entry)) starts.now }
{
    let mut rest = starts;
    for row in rows {
        if let Part::Volume(volume) = row.part {
            let (_own, after) = rest.split_at(volume.files().len());
            rest = after;
        }
    }
    rest
}

// Returns the starts of a volume's own files, or the fault if they cannot be placed. `depth` is the
// number of groups and opened volumes around the volume, which a row calls `nesting`.
fn own_starts(alloc: Global, view: &VolumeView<'_>, depth: u8) -> Result<Vec<u64>, Fault>
    ensures ok { IfOk result (λ own. AreStarts view.now own.items) }
    ensures err { IfErr result (OrMemory (UnfitHere view.now depth)) }
    ensures memory { IfErr result (λ f. f ≡ out_of_memory → 0 < length (files_of view.now)) }
{
    let head = view.head();
    let total = head.length();
    let first = first_edge(head);
    let items = placement_items(alloc, view)?;
    if is_top_misaligned(total, items.as_slice()) {
        return Err(layout_fault(FaultKind::TopAlignment, depth));
    }
    match first_starts(alloc, total, first, items.as_slice())? {
        None => Err(layout_fault(FaultKind::NoRoom, depth)),
        Some(own) => Ok(own),
    }
}

// Returns, for each file of a volume in order, the properties on which the file's placement
// depends.
fn placement_items(alloc: Global, view: &VolumeView<'_>) -> Result<Vec<PlacementItem>, Fault>
    ensures ok { IfOk result (λ items. (items.items ≡ placement_items view.now)
        × All (IsLawfulItem (head_of view.now).length) items.items) }
    ensures err { IfErr result (λ f. f ≡ out_of_memory) }
    ensures some { IfErr result (λ _. 0 < length (files_of view.now)) }
{
    // In a volume that was read, no file is longer than the volume.
    view.known();
    let files = view.files();
    let mut items = Vec::with_capacity(alloc, files.len())?;
    for file in files {
        items.push(placement_item(file))?;
    }
    Ok(items)
}

// Returns the properties of a file on which its placement depends.
fn placement_item(file: &FileView<'_>) -> PlacementItem
    ensures { result ≡ placement_item file.now }
{
    let name = file.name();
    let data_len = file.data_len();
    let header = header_len_for(data_len);
    PlacementItem {
        header,
        size: header + data_len,
        alignment: Align::from_attributes(file.attributes().byte()).bytes() as u32,
        top: name.to_bytes()[..] == VOLUME_TOP_FILE[..],
    }
}

// Returns a fault of the layout of a volume at this depth.
fn layout_fault(kind: FaultKind, depth: u8) -> Fault
    ensures { result ≡ layout_fault kind depth }
{
    Fault {
        kind,
        place: Place { offset: 0, depth },
    }
}
