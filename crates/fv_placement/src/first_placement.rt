//! The first placement of the files of a volume.
//!
//! The files are placed in their order. A file begins at a lawful start: a multiple of 8 at which
//! its data are aligned, and which is either the preceding edge or at least 24 bytes after it, so
//! that a pad fits in the gap. (For the first file, the preceding edge is the first edge of the
//! volume. For any other file, it is the end of the previous file, rounded up to 8.) Each file ends
//! within the volume, and the volume top file ends where the volume ends. A list of such starts,
//! with one start for each file, is a placement. In the first placement each start is the least
//! among all placements with the same earlier starts.
//!
//! In most volumes each file can have its least start: the least lawful start after the preceding
//! edge, and for the volume top file the start with which it ends where the volume ends. If these
//! least starts are a placement, they are the first placement, because no placement with the same
//! earlier starts has a lower next start. But a least start can be too low. If it leaves 8 or 16
//! bytes in front of the volume top file, no pad fits there, and an earlier file has to begin
//! further on.
//!
//! So if the least starts are not a placement, a search goes backwards and then forwards. Going
//! backwards, it finds for each file the edges after which the later files can be placed: their
//! reach. Going forwards, it places each file at the least lawful start whose next edge (the end of
//! the file, rounded up to 8) is such an edge. The least starts are found by the same forward pass,
//! as if no file followed.

ghost use Rattle.std.specs.Prelude.{◌≡◌, ℕ, ◌+◌, ◌%◌, ◌^◌, ◌<◌, ◌≤◌, IfOk, IfErr, IfSome, IfNone, List};
ghost use Rattle.std.specs.Prelude.{IsTrue, ◌↔◌, All, length, get_or, false};
ghost use Rattle.fv_base.specs.Words.{out_of_memory, volume_limit};
ghost use Rattle.fv_placement.specs.declared.reach.Reach.{Reach};
ghost use Rattle.fv_placement.specs.declared.first_placement.PlacementItem.{PlacementItem};
ghost use Rattle.fv_placement.specs.inner.Reaches.{AreReaches, CanPlace, IsBound, IsGreatest, IsReach, IsUsableStart};
ghost use Rattle.fv_placement.specs.Starts.{IsFirstPlacement, Placement};
ghost use Rattle.fv_placement.specs.Items.{IsLawfulItem};
ghost use Rattle.fv_placement.specs.NoPlacement.{IsMisaligned, TopMisaligned};

use crate::reach::{Reach, is_usable_start, reach_of_none};
use crate::usable_start::{first_start, greatest_start};
use fv_base::Fault;
use fv_base::field::up_to_8;
use std::alloc::Global;
use std::mem::size_of;

/// The properties of a file on which its placement depends. (PI specification, volume 3, section
/// 3.2.3.1.)
#[derive(Clone, Copy)]
pub struct PlacementItem {
    /// The length of the file's header, in bytes.
    pub header: u64,
    /// The size of the file with its header, in bytes.
    pub size: u64,
    /// The alignment of the file's data, in bytes.
    pub alignment: u32,
    /// Whether the file is the volume top file. (Section 3.2.1.3.)
    pub top: bool,
}

// A file takes at least 24 bytes of a volume, and a value of this type takes 24. So a list of the
// items takes at most the length of the volume.
const _: () = prove!(size_of::<PlacementItem>() == 24);

/// Returns the first placement of the files in a volume of `total` bytes with the first edge
/// `first`: the start of each file, in bytes from the volume's start. Returns None if the files
/// cannot be placed in their order at all. Both `total` and `first` are multiples of 8; `total` is
/// within the limit of a volume, and `first` is below 2 ^ 32. Each file is at most as long as the
/// volume, and at least as long as its own header. The header's length is a multiple of 8 bytes.
/// The file's alignment is a power of two, at most 2 ^ 24. (PI specification, volume 3, section
/// 3.2.3.1.)
///
/// # Errors
///
/// OutOfMemory, only if there is a file.
pub fn first_starts(
    alloc: Global,
    total: u64,
    first: u64,
    items: &[PlacementItem],
) -> Result<Option<Vec<u64>>, Fault>
    requires total { (total ≤ volume_limit) × (total % 8 ≡ 0) }
    requires first { (first % 8 ≡ 0) × (first < 2 ^ 32) }
    requires items { All (IsLawfulItem total) items.now }

    // The returned starts are the first placement of the files.
    ensures found { IfOk result (λ o. IfSome o (λ starts. IsFirstPlacement total first items.now starts.items)) }

    // None is returned only if the files have no placement at all.
    ensures none { IfOk result (λ o. IfNone o ((starts : List ℕ) → Placement total first items.now starts → ⊥)) }

    ensures err { IfErr result (λ f. f ≡ out_of_memory) }
    ensures some { IfErr result (λ _. 0 < length items.now) }
{
    if first > total {
        return Ok(None);
    }
    if let Some(starts) = place_each(alloc, total, first, items, &[])? {
        return Ok(Some(starts));
    }
    let mut reaches = vec![in alloc; reach_of_none(total); items.len()]?;
    if !find_reaches(total, items, reaches.as_mut_slice()) {
        return Ok(None);
    }
    place_each(alloc, total, first, items, reaches.as_slice())
}

// Places each file in turn at its first usable start. `reaches` holds for each file the reach of
// the files after it, or is empty: then each file is placed as if no file followed. Returns None if
// a file has no usable start.
fn place_each(
    alloc: Global,
    total: u64,
    first: u64,
    items: &[PlacementItem],
    reaches: &[Reach],
) -> Result<Option<Vec<u64>>, Fault>
    requires total { (total ≤ volume_limit) × (total % 8 ≡ 0) }
    requires first { (first % 8 ≡ 0) × (first ≤ total) }
    requires items { All (IsLawfulItem total) items.now }
    requires reaches { AreReaches (IsBound total) items.now reaches.now }
    ensures found { IfOk result (λ o. IfSome o (λ starts. IsFirstPlacement total first items.now starts.items)) }
    ensures none { length reaches.now ≡ length items.now → AreReaches (IsReach total) items.now reaches.now
        → IfOk result (λ o. IfNone o ((starts : List ℕ) → Placement total first items.now starts → ⊥)) }
    ensures err { IfErr result (λ f. f ≡ out_of_memory) }
    ensures some { IfErr result (λ _. 0 < length items.now) }
    ensures empty { IfOk result (λ o. IfNone o (0 < length items.now)) }
{
    let mut starts = Vec::with_capacity(alloc, items.len())?;
    let mut edge = first;
    for (i, item) in items.iter().enumerate() {
        match first_start(total, edge, item, reach_after(total, reaches, i)) {
            None => return Ok(None),
            Some(start) => {
                starts.push(start)?;
                edge = up_to_8(start + item.size);
            }
        }
    }
    Ok(Some(starts))
}

// Returns the reach of the files after file `i`. If `reaches` does not hold it, returns the reach
// of no files.
fn reach_after(total: u64, reaches: &[Reach], i: usize) -> Reach
    requires total { total % 8 ≡ 0 }
    ensures known { (d : Reach) → i < length reaches.now → result ≡ get_or reaches.now i d }
    ensures unknown { length reaches.now ≤ i → (fs : List PlacementItem) → IsBound total fs result }
{
    if i < reaches.len() {
        reaches[i]
    } else {
        reach_of_none(total)
    }
}

// Fills in the reach of the files after each file, from the last file to the first. Returns false
// if the files cannot be placed at all.
fn find_reaches(total: u64, items: &[PlacementItem], reaches: &mut [Reach]) -> bool
    requires total { (total ≤ volume_limit) × (total % 8 ≡ 0) }
    requires items { All (IsLawfulItem total) items.now }
    requires len { length reaches.old ≡ length items.now }
    ensures len { length reaches.new ≡ length items.now }
    ensures found { IsTrue result → AreReaches (IsReach total) items.now reaches.new }
    ensures none { result ≡ false → (e : ℕ) → CanPlace total e items.now → ⊥ }
{
    let mut reach = reach_of_none(total);
    let mut left = items.len();
    while left > 0 {
        left -= 1;
        reaches[left] = reach;
        match reach_from(total, &items[left], reach) {
            None => return false,
            Some(found) => reach = found,
        }
    }
    true
}

// Returns the reach of a file together with the files after it, which have the reach `after`. A
// file may begin at the edge itself, so the greatest usable edge is the greatest usable start of
// the file. Returns None if the file has no usable start.
fn reach_from(total: u64, item: &PlacementItem, after: Reach) -> Option<Reach>
    requires total { (total ≤ volume_limit) × (total % 8 ≡ 0) }
    requires item { IsLawfulItem total item.now }
    requires after { (after.greatest ≤ total) × (after.greatest % 8 ≡ 0) }
    ensures found { IfSome result (λ r. IsGreatest total item.now after r) }
    ensures none { IfNone result ((s : ℕ) → IsUsableStart total item.now after s → ⊥) }
{
    let greatest = greatest_start(total, item, after)?;
    let near = is_usable_below(total, item, after, greatest, 8);
    let far = is_usable_below(total, item, after, greatest, 16);
    Some(Reach {
        greatest,
        near,
        far,
    })
}

// Returns whether the start `by` bytes below `greatest` is usable.
fn is_usable_below(total: u64, item: &PlacementItem, after: Reach, greatest: u64, by: u64) -> bool
    requires total { total ≤ volume_limit }
    requires item { IsLawfulItem total item.now }
    requires greatest { greatest < 2 ^ 61 }
    ensures { (t : ℕ) → t + by ≡ greatest
        → (IsTrue result → IsUsableStart total item.now after t) × (IsUsableStart total item.now after t → IsTrue result) }
{
    by <= greatest && is_usable_start(total, item, after, greatest - by)
}

// Returns whether the volume top file cannot begin at its only possible start: the start is not a
// multiple of 8, or the file's data are not aligned there.
fn is_misaligned(total: u64, item: &PlacementItem) -> bool
    requires total { total ≤ volume_limit }
    requires item { IsLawfulItem total item.now }
    ensures { IsTrue result ↔ IsMisaligned total item.now }
{
    let start = total - item.size;
    (start + item.header) % u64::from(item.alignment) != 0 || start % 8 != 0
}

/// Returns whether there is a volume top file that cannot begin at its only possible start: the
/// start is not a multiple of 8, or the file's data are not aligned there. With its only possible
/// start, the file ends where the volume of `total` bytes ends. `total` is within the limit of a
/// volume, and the files are as for `first_starts`. Takes no memory. (PI specification, volume 3,
/// section 3.2.1.3.)
pub fn is_top_misaligned(total: u64, items: &[PlacementItem]) -> bool
    requires total { total ≤ volume_limit }
    requires items { All (IsLawfulItem total) items.now }
    ensures { IsTrue result ↔ TopMisaligned total items.now }
{
    for item in items {
        if item.top && is_misaligned(total, item) {
            return true;
        }
    }
    false
}
