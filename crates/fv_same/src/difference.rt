//! Whether two images mean the same, and where they first differ.

ghost use Rattle.std.specs.Prelude.{◌≡◌, ◌≢◌, IfOk, IfErr, IfSome, IfNone, IsTrue, option_map};
ghost use Rattle.fv_base.specs.Words.{out_of_memory};
ghost use Rattle.fv_same.specs.Parts.{parts_of, placed_parts};
ghost use Rattle.fv_same.specs.Sameness.{FirstDiffers};
ghost use Rattle.fv_same.specs.inner.Walks.{meant};

use crate::part::{Part, PartPlace};
use crate::part_walk::PartWalk;
use fv_base::Fault;
use fv_levels::Levels;
use std::alloc::Global;

/// Where two images first differ: the places of the first parts that do not mean the same. If only
/// one image has a part there, the other has no place.
#[derive(Clone, Copy, Debug, PartialEq, Eq)]
pub struct Difference {
    /// The place in the first image.
    pub first: Option<PartPlace>,
    /// The place in the second image.
    pub second: Option<PartPlace>,
}

// Returns whether two parts mean the same, wherever they are, or both are missing.
fn are_same(one: &Option<Part<'_>>, other: &Option<Part<'_>>) -> bool
    ensures yes { IsTrue result → meant one.now ≡ meant other.now }
    ensures all { meant one.now ≡ meant other.now → IsTrue result }
{
    match (one, other) {
        (Some(part), Some(twin)) => part.means(twin),
        (None, None) => true,
        _ => false,
    }
}

// Returns the place of a part, if there is one.
fn place_of(part: &Option<Part<'_>>) -> Option<PartPlace>
    ensures { result ≡ option_map (λ p. p.place) part.now }
{
    match part {
        Some(part) => Some(part.place),
        None => None,
    }
}

/// Returns where two images first differ, or None if they mean the same at every level.
///
/// # Errors
///
/// OutOfMemory at offset 0.
pub fn first_difference(
    alloc: Global,
    first: &Levels<'_>,
    second: &Levels<'_>,
) -> Result<Option<Difference>, Fault>
    // None is returned exactly if the parts of the two images are equal.
    ensures same { IfOk result (λ o. IfNone o (parts_of first.now ≡ parts_of second.now)) }
    ensures other { IfOk result (λ o. IfSome o (λ _. parts_of first.now ≢ parts_of second.now)) }

    // The difference has the places of the first parts that are not equal.
    ensures first { IfOk result (λ o. IfSome o (λ d. FirstDiffers d (placed_parts first.now) (placed_parts second.now))) }

    // The only error is OutOfMemory.
    ensures err { IfErr result (λ f. f ≡ out_of_memory) }
{
    let mut one = PartWalk::of(alloc, first)?;
    let mut other = PartWalk::of(alloc, second)?;
    loop {
        let part = one.next_part(alloc)?;
        let twin = other.next_part(alloc)?;
        if !are_same(&part, &twin) {
            return Ok(Some(Difference {
                first: place_of(&part),
                second: place_of(&twin),
            }));
        }
        if part.is_none() {
            return Ok(None);
        }
    }
}
