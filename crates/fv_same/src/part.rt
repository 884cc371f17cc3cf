//! The parts of an image at every level.

ghost use Rattle.std.specs.Prelude.{◌≡◌, IsTrue, take, drop};
ghost use Rattle.fv_same.specs.inner.Placed.{placed_form};
ghost use Rattle.fv_same.specs.Meant.{says};

use crate::bytes::byte_at;
use fv_survey::RowKind;

/// Where a part is: the row of a source.
#[derive(Clone, Copy, Debug, PartialEq, Eq)]
pub struct PartPlace {
    /// The number of the source. The image is source 0.
    pub source: usize,
    /// The offset of the row, in bytes from the first byte of the source.
    pub offset: u64,
    /// The length of the row in bytes.
    pub length: u64,
}

/// A part of an image, or bytes outside of the meaning.
#[derive(Clone, Copy)]
pub(crate) struct Part<'a> {
    pub(crate) place: PartPlace,
    // The number of opened sections around the part.
    pub(crate) level: usize,
    // The number of rows around the part in its source.
    pub(crate) depth: u16,
    pub(crate) kind: RowKind,
    pub(crate) bytes: &'a [u8],
    // Whether these are bytes outside of the meaning, and not a part.
    pub(crate) outside: bool,
}

// Returns the first `size` bytes, or all, if there are fewer.
fn front(bytes: &[u8], size: usize) -> &[u8]
    ensures { result.now ≡ take size bytes.now }
{
    &bytes[..size.min(bytes.len())]
}

// Returns the bytes from the offset `at` on, or none, if there are fewer.
fn rest(bytes: &[u8], at: usize) -> &[u8]
    ensures { result.now ≡ drop at bytes.now }
{
    &bytes[at.min(bytes.len())..]
}

// Returns whether two parts of this kind say the same.
fn say_same(kind: RowKind, one: &[u8], other: &[u8]) -> bool
    ensures yes { IsTrue result → says kind one.now ≡ says kind other.now }
    ensures all { says kind one.now ≡ says kind other.now → IsTrue result }
{
    match kind {
        RowKind::VolumeHeader => front(one, 50) == front(other, 50)
            && rest(one, 54) == rest(other, 54),
        RowKind::FileHeader => {
            front(one, 16) == front(other, 16)
                && byte_at(one, 18) == byte_at(other, 18)
                && byte_at(one, 19) / 2 == byte_at(other, 19) / 2
        }
        RowKind::SectionHeader => byte_at(one, 3) == byte_at(other, 3) && one.len() == other.len(),
        RowKind::Filler => one.len() == other.len(),
        _ => one == other,
    }
}

impl<'a> Part<'a> {
    /// Returns whether two parts mean the same, wherever they are.
    pub(crate) fn means(&self, other: &Part<'_>) -> bool
        ensures yes { IsTrue result → (placed_form self.now).part ≡ (placed_form other.now).part }
        ensures all { (placed_form self.now).part ≡ (placed_form other.now).part → IsTrue result }
    {
        self.level == other.level
            && self.depth == other.depth
            && self.kind == other.kind
            && say_same(self.kind, self.bytes, other.bytes)
    }
}
