//! Where the headers of two volumes first differ.

ghost use Rattle.std.specs.Prelude.{◌≡◌, option_copied};
ghost use Rattle.fv_tree.specs.Difference.{blocks_eq, entries_eq, ext_eq, head_differs};
ghost use Rattle.fv_tree.specs.inner.FoundDifferences.{in_kind};

use crate::difference::DifferenceKind;
use fv_head::{ExtEntry, ExtHeader, VolumeHead};

// Returns whether two block maps are equal.
fn same_blocks(a: &[(u32, u32)], b: &[(u32, u32)]) -> bool
    ensures { result ≡ blocks_eq a.now b.now }
{
    a == b
}

// Returns whether the entries of two extended headers are equal.
fn same_entries(a: &[ExtEntry<'_>], b: &[ExtEntry<'_>]) -> bool
    ensures { result ≡ entries_eq a.now b.now }
{
    if a.len() != b.len() {
        return false;
    }
    for (i, entry) in a.iter().enumerate() {
        if entry.kind() != b[i].kind() || entry.payload() != b[i].payload() {
            return false;
        }
    }
    true
}

// Returns whether two extended headers are equal.
fn same_ext(a: Option<&ExtHeader<'_>>, b: Option<&ExtHeader<'_>>) -> bool
    ensures { result ≡ ext_eq (option_copied a.entry) (option_copied b.entry) }
{
    match (a, b) {
        (None, None) => true,
        (Some(x), Some(y)) => {
            x.name() == y.name() && same_entries(x.entries(), y.entries()) && x.tail() == y.tail()
        }
        _ => false,
    }
}

// Returns the kind of the first difference between two headers, or None if they are equal.
pub(crate) fn head_difference_kind(
    head: &VolumeHead<'_>,
    other: &VolumeHead<'_>,
) -> Option<DifferenceKind>
    ensures { in_kind result ≡ head_differs head.now other.now }
{
    if head.zero_vector() != other.zero_vector() {
        return Some(DifferenceKind::ZeroVector);
    }
    if head.file_system() != other.file_system() {
        return Some(DifferenceKind::FileSystem);
    }
    if head.length() != other.length() {
        return Some(DifferenceKind::Length);
    }
    if head.attributes() != other.attributes() {
        return Some(DifferenceKind::VolumeAttributes);
    }
    if head.reserved() != other.reserved() {
        return Some(DifferenceKind::Reserved);
    }
    if !same_blocks(head.blocks().as_slice(), other.blocks().as_slice()) {
        return Some(DifferenceKind::BlockMap);
    }
    if !same_ext(head.ext(), other.ext()) {
        return Some(DifferenceKind::ExtendedHeader);
    }
    None
}
