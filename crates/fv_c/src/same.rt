//! Whether two images mean the same at every level, and where they first differ.

ghost use Rattle.std.specs.Prelude.{◌≡◌, ◌≢◌, ◌↔◌, Option, IfOk, IfErr, IfSome, IfNone};
ghost use Rattle.fv_base.specs.Words.{out_of_memory};
ghost use Rattle.fv_same.specs.Words.{FirstDiffers, Same, placed_parts};
ghost use Rattle.fv_same.specs.declared.difference.Difference.{Difference};
ghost use Rattle.fv_c.specs.ReportedLevels.{budget_within, levels_within};
ghost use Rattle.fv_c.specs.ReportedSameness.{reported_place, reported_sameness};
ghost use Rattle.fv_c.specs.Reports.{no_fault, reported_fault};

use crate::levels::budget_within;
use crate::reports::{FvFault, NO_FAULT, set_fault};
use fv_base::Fault;
use fv_levels::open_all;
use fv_same::{Difference, PartPlace, first_difference};
use std::alloc::Global;

/// The place of a part of an image at every level, or zeros. (PI specification, volume 3, section
/// 3.2.)
#[repr(C)]
#[derive(Clone, Copy)]
pub struct FvPartPlace {
    /// The number of the source that the part is in. The image is source 0.
    pub source: u64,
    /// The offset of the part in bytes from the first byte of the source.
    pub offset: u64,
    /// The length of the part in bytes.
    pub length: u64,
    /// 1 if there is a part, else 0.
    pub has_place: u32,
    /// Always 0.
    pub reserved: u32,
}

/// Whether two images mean the same at every level, and the places of the first parts that do not
/// mean the same.
#[repr(C)]
#[derive(Clone, Copy)]
pub struct FvSameness {
    /// The place in the first image.
    pub first: FvPartPlace,
    /// The place in the second image.
    pub second: FvPartPlace,
    /// 1 if the two images mean the same, else 0.
    pub is_same: u32,
    /// Always 0.
    pub reserved: u32,
}

// Returns the report of a place, if there is one.
fn reported_place(place: Option<PartPlace>) -> FvPartPlace
    ensures { result ≡ reported_place place }
{
    match place {
        Some(place) => FvPartPlace {
            source: place.source as u64,
            offset: place.offset,
            length: place.length,
            has_place: 1,
            reserved: 0,
        },
        None => FvPartPlace {
            source: 0,
            offset: 0,
            length: 0,
            has_place: 0,
            reserved: 0,
        },
    }
}

// Returns the report of a difference, if there is one.
fn reported_sameness(difference: Option<Difference>) -> FvSameness
    ensures { result ≡ reported_sameness difference }
{
    match difference {
        Some(difference) => FvSameness {
            first: reported_place(difference.first),
            second: reported_place(difference.second),
            is_same: 0,
            reserved: 0,
        },
        None => FvSameness {
            first: reported_place(None),
            second: reported_place(None),
            is_same: 1,
            reserved: 0,
        },
    }
}

// Opens two images within a limit, and returns where they first differ.
fn difference_within(
    alloc: Global,
    first: &[u8],
    second: &[u8],
    limit: u64,
) -> Result<Option<Difference>, Fault>
    ensures same { IfOk result (λ o. IfNone o (Same (budget_within limit) first.now second.now)) }
    ensures other { IfOk result (λ o. IfSome o (λ _. Same (budget_within limit) first.now second.now → ⊥)) }
    ensures first { IfOk result (λ o. IfSome o (λ d. FirstDiffers d (placed_parts (levels_within limit first.now))
        (placed_parts (levels_within limit second.now)))) }
    ensures err { IfErr result (λ f. f ≡ out_of_memory) }
{
    let one = open_all(alloc, first, budget_within(limit))?;
    let other = open_all(alloc, second, budget_within(limit))?;
    first_difference(alloc, &one, &other)
}

/// Opens the packed sections of two images, as `fvp_image_open` does, each within a budget of at most
/// `limit` bytes, and compares what the images mean at every level: whatever the places, the pads and
/// the packing of their parts are. `found` says whether the images mean the same. If they do not, it
/// has the places of the first parts that do not mean the same; if only one image has a part there,
/// the other has no place. Returns 0. (PI specification, volume 3, sections 2.1 and 3.2.)
///
/// # Errors
///
/// 24 if memory runs out; it is then in `fault`, and `found` is unchanged.
#[unsafe(no_mangle)]
pub extern "C" fn fvp_image_same(
    alloc: Global,
    first: &[u8],
    second: &[u8],
    limit: u64,
    found: &mut FvSameness,
    fault: &mut FvFault,
) -> u32
    // The images are reported to be the same exactly if their parts are equal.
    ensures same { result ≡ 0 → (found.new.is_same ≡ 1) ↔ Same (budget_within limit) first.now second.now }

    // Otherwise, the places are those of the first parts that are not equal.
    ensures ok { result ≡ 0 → (o : Option Difference) × (found.new ≡ reported_sameness o)
        × IfSome o (λ d. FirstDiffers d (placed_parts (levels_within limit first.now))
        (placed_parts (levels_within limit second.now)))
        × (fault.new ≡ no_fault) }

    ensures kept { result ≢ 0 → found.new ≡ found.old }

    // Any other result is out of memory.
    ensures err { result ≢ 0 → (result ≡ 24) × (fault.new ≡ reported_fault out_of_memory) }
{
    match difference_within(alloc, first, second, limit) {
        Ok(difference) => {
            *found = reported_sameness(difference);
            *fault = NO_FAULT;
            0
        }
        Err(memory) => set_fault(memory, fault),
    }
}
