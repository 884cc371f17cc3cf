//! The reach of some files: the edges after which they can be placed. These are the usable edges.
//!
//! A file begins at the preceding edge, or at least 24 bytes after it, because the smallest pad has
//! 24 bytes. If `greatest` is the greatest usable edge, every edge at least 24 bytes below it is
//! usable too, because a pad fills the gap. Edges are multiples of 8, so only the edges 8 and 16
//! bytes below `greatest` are left. After one of these two edges, a start that leaves room for a pad
//! is above `greatest`. The first of the files cannot begin at such a start. If it could, the start
//! would be a usable edge too, because a file may begin at the preceding edge. But no usable edge is
//! above `greatest`. So each of the two edges is usable only if the first file can begin at the edge
//! itself. So one number and two truth values determine which edges are usable.

ghost use Rattle.std.specs.Prelude.{◌≡◌, ◌%◌, ◌^◌, ◌<◌, ◌≤◌, ◌↔◌, IsTrue, List, []};
ghost use Rattle.fv_base.specs.Words.{volume_limit};
ghost use Rattle.fv_placement.specs.declared.first_placement.PlacementItem.{PlacementItem};
ghost use Rattle.fv_placement.specs.Items.{IsLawfulItem};
ghost use Rattle.fv_placement.specs.inner.Reaches.{IsBound, IsReach, IsUsableEdge, IsUsableStart};

use crate::first_placement::PlacementItem;
use fv_base::field::up_to_8;

/// The edges after which some files can be placed: `greatest`, the edges 8 and 16 bytes below it if
/// `near` and `far` say that they are usable, and every edge at least 24 bytes below it.
#[derive(Clone, Copy)]
pub(crate) struct Reach {
    /// The greatest usable edge, in bytes from the volume's start.
    pub greatest: u64,
    /// Whether the edge 8 bytes below `greatest` is usable.
    pub near: bool,
    /// Whether the edge 16 bytes below `greatest` is usable.
    pub far: bool,
}

// Returns the reach of no files: every edge up to the volume's end is usable. After an edge past
// the end, no list of files can be placed, not even an empty list.
pub(crate) fn reach_of_none(total: u64) -> Reach
    requires total { total % 8 ≡ 0 }
    ensures none { IsReach total [] result }
    ensures bound { (fs : List PlacementItem) → IsBound total fs result }
{
    Reach {
        greatest: total,
        near: true,
        far: true,
    }
}

// Returns whether files with the reach `after` can be placed after `edge`.
fn is_usable_edge(after: Reach, edge: u64) -> bool
    requires { edge < 2 ^ 62 }
    ensures { IsTrue result ↔ IsUsableEdge after edge }
{
    edge + 24 <= after.greatest
        || edge == after.greatest
        || (after.near && edge + 8 == after.greatest)
        || (after.far && edge + 16 == after.greatest)
}

// Returns whether `start` is usable for the file, if the files after it have the reach `after`. Does
// not check the gap before `start`.
pub(crate) fn is_usable_start(total: u64, item: &PlacementItem, after: Reach, start: u64) -> bool
    requires total { total ≤ volume_limit }
    requires item { IsLawfulItem total item.now }
    requires start { start < 2 ^ 61 }
    ensures { IsTrue result ↔ IsUsableStart total item.now after start }
{
    start % 8 == 0
        && (start + item.header) % u64::from(item.alignment) == 0
        && (!item.top || start + item.size == total)
        && is_usable_edge(after, up_to_8(start + item.size))
}
