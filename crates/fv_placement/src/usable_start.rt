//! The first and the greatest usable start of a file, given the reach of the files after it.
//!
//! A start is usable if it is a multiple of 8 at which the file's data are aligned, and the edge
//! after the file (the end of the file, rounded up to 8) is usable. The volume top file has one
//! possible start, with which it ends at the volume's end. For any other file the search goes from
//! one aligned start to the next. The step is the alignment of the file's data, but at least 8.

ghost use Rattle.std.specs.Prelude.{◌≡◌, ℕ, ◌+◌, ◌%◌, ◌^◌, ◌<◌, ◌≤◌, IfSome, IfNone};
ghost use Rattle.fv_base.specs.Words.{IsAlignment, volume_limit};
ghost use Rattle.fv_placement.specs.Starts.{Lawful};
ghost use Rattle.fv_placement.specs.Items.{IsLawfulItem};
ghost use Rattle.fv_placement.specs.inner.Reaches.{IsFirstStart, IsUsableStart, Widens};

use crate::first_placement::PlacementItem;
use crate::reach::{Reach, is_usable_start};
use fv_base::field::up_to_8;

// Returns the greatest multiple of the alignment that is at most `x`.
#[tactic(auto, using(crate::proofs::MultipleLaws::is_multiple, crate::proofs::MultipleLaws::none_between))]
fn round_down(x: u64, alignment: u64) -> u64
    requires { 0 < alignment }
    ensures multiple { result % alignment ≡ 0 }
    ensures below { result ≤ x }
    ensures near { x < result + alignment }
    ensures greatest { (y : ℕ) → y % alignment ≡ 0 → y ≤ x → y ≤ result }
{
    x - x % alignment
}

// Returns the least multiple of the alignment that is at least `x`.
#[tactic(auto, using(crate::proofs::MultipleLaws::none_between))]
fn round_up(x: u64, alignment: u64) -> u64
    requires alignment { 0 < alignment }
    requires small { x + alignment < 2 ^ 62 }
    ensures multiple { result % alignment ≡ 0 }
    ensures above { x ≤ result }
    ensures near { result < x + alignment }
    ensures least { (y : ℕ) → y % alignment ≡ 0 → x ≤ y → result ≤ y }
{
    round_down(x + (alignment - 1), alignment)
}

// Returns the step between aligned starts: the alignment of the data, but at least 8.
#[tactic(auto, using(crate::proofs::MultipleLaws::widens_8, crate::proofs::MultipleLaws::widens_self))]
fn widened(alignment: u32) -> u64
    requires { IsAlignment alignment }
    ensures { Widens result alignment }
{
    if alignment < 8 {
        8
    } else {
        u64::from(alignment)
    }
}

// Returns the first usable start at or after `edge`, if there is one: `edge` itself, or a start
// that leaves room for a pad. The loop tries at most two starts. A start in the loop fails only if
// the edge after the file is 8 or 16 bytes below `after.greatest`. With a step of 8 no start in the
// loop fails. The first start in the loop is `edge` + 24. If it failed, a file that begins at `edge`
// would end 24 bytes earlier, so the edge after that file would be 32 or 40 bytes below
// `after.greatest` and usable, and `edge` would have been returned before. A larger step is at least
// 16, so the next start leads to `after.greatest` or past it.
pub(crate) fn first_start(total: u64, edge: u64, item: &PlacementItem, after: Reach) -> Option<u64>
    requires total { total ≤ volume_limit }
    requires edge { (edge % 8 ≡ 0) × (edge ≤ total) }
    requires item { IsLawfulItem total item.now }
    requires after { after.greatest ≤ total }
    ensures found { IfSome result (λ s. IsFirstStart total edge item.now after s) }
    ensures none { IfNone result ((s : ℕ) → Lawful edge item.now s → IsUsableStart total item.now after s → ⊥) }
{
    if is_usable_start(total, item, after, edge) {
        return Some(edge);
    }
    if item.top {
        let start = total - item.size;
        return if edge + 24 <= start && is_usable_start(total, item, after, start) {
            Some(start)
        } else {
            None
        };
    }
    let step = widened(item.alignment);
    let mut start = round_up(edge + 24 + item.header, step) - item.header;
    while start + item.size <= after.greatest {
        if is_usable_start(total, item, after, start) {
            return Some(start);
        }
        start += step;
    }
    None
}

// Returns the greatest usable start, if there is one. The volume top file has one possible start.
// For any other file, a candidate is a multiple of 8 at which the file's data are aligned, and with
// which the edge after the file is at most `after.greatest`. One of the two greatest candidates is
// the greatest usable start. With a step of 8 the greatest candidate leads exactly to
// `after.greatest`. With a larger step, which is at least 16, it may lead to an edge 8 or 16 bytes
// below `after.greatest`, which may be unusable. The next lower candidate then leads to an edge at
// least 24 bytes below `after.greatest`, which is usable.
pub(crate) fn greatest_start(total: u64, item: &PlacementItem, after: Reach) -> Option<u64>
    requires total { (total ≤ volume_limit) × (total % 8 ≡ 0) }
    requires item { IsLawfulItem total item.now }
    requires after { (after.greatest ≤ total) × (after.greatest % 8 ≡ 0) }
    ensures found { IfSome result
        (λ s. IsUsableStart total item.now after s × ((t : ℕ) → IsUsableStart total item.now after t → t ≤ s)) }
    ensures none { IfNone result ((s : ℕ) → IsUsableStart total item.now after s → ⊥) }
{
    if item.top {
        let start = total - item.size;
        return if is_usable_start(total, item, after, start) {
            Some(start)
        } else {
            None
        };
    }
    let extent = up_to_8(item.size);
    if after.greatest < extent {
        return None;
    }
    let step = widened(item.alignment);
    let data = round_down(after.greatest - extent + item.header, step);
    if data < item.header {
        return None;
    }
    let start = data - item.header;
    if is_usable_start(total, item, after, start) {
        return Some(start);
    }
    if start < step {
        return None;
    }
    Some(start - step)
}
