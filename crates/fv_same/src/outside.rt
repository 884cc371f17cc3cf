//! The bytes outside of the meaning that differ.

ghost use Rattle.std.specs.Prelude.{◌≡◌, ◌-◌, ◌^◌, min, [], IfOk, IfErr, IfSome, IfNone};
ghost use Rattle.fv_base.specs.Words.{out_of_memory};
ghost use Rattle.fv_same.specs.Outside.{all_differing, differing};
ghost use Rattle.fv_same.specs.Parts.{asides_of};

use crate::part_walk::PartWalk;
use fv_base::Fault;
use fv_levels::Levels;
use std::alloc::Global;

// Returns in how many bytes two lists of bytes differ.
fn differing(one: &[u8], other: &[u8]) -> u64
    ensures { result ≡ differing one.now other.now }
{
    let shared = one.len().min(other.len());
    let mut count = 0;
    for at in 0..shared {
        if one[at] != other[at] {
            count += 1;
        }
    }
    count + (one.len() - shared) as u64 + (other.len() - shared) as u64
}

// Returns the bytes, or none.
fn bytes_of(aside: Option<&[u8]>) -> &[u8]
    ensures some { IfSome aside.entry (λ b. result.now ≡ b.now) }
    ensures none { IfNone aside.entry (result.now ≡ []) }
{
    match aside {
        Some(bytes) => bytes,
        None => &[],
    }
}

/// Returns in how many bytes outside of the meaning two images differ, at every level: non-erased
/// pads, deleted, superseded and unfinished files, fillers, and bytes before extended headers. They
/// are compared in pairs, in the order of the rows. Headers and erased bytes are left out. A number
/// of 2 ^ 64 or more is given as 2 ^ 64 - 1.
///
/// # Errors
///
/// OutOfMemory at offset 0.
pub fn outside_difference(
    alloc: Global,
    first: &Levels<'_>,
    second: &Levels<'_>,
) -> Result<u64, Fault>
    // The number of bytes outside of the meaning that differ.
    ensures count { IfOk result (λ n. n ≡ min (all_differing (asides_of first.now) (asides_of second.now)) (2 ^ 64 - 1)) }

    // The only error is OutOfMemory.
    ensures err { IfErr result (λ f. f ≡ out_of_memory) }
{
    let mut one = PartWalk::of(alloc, first)?;
    let mut other = PartWalk::of(alloc, second)?;
    let mut count = 0u64;
    loop {
        let aside = one.next_aside(alloc)?;
        let twin = other.next_aside(alloc)?;
        if aside.is_none() && twin.is_none() {
            return Ok(count);
        }
        let left = bytes_of(aside);
        let right = bytes_of(twin);
        let more = differing(left, right);
        count = count.saturating_add(more);
    }
}
