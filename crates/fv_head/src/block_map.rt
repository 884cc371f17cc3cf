//! The block map of a volume.

ghost use Rattle.std.specs.Prelude.{◌≡◌, ◌+◌, ◌<◌, ◌∷◌, IfSome, IfNone, List, ℕ, length};
ghost use Rattle.fv_head.specs.Pairs.{pairs_of};

use crate::offsets::{BLOCK_ENTRY_LEN, BLOCK_LENGTH_OFFSET, NUM_BLOCKS_OFFSET};
use fv_base::field::u32_at;
use std::marker::Model;

/// The block map of a volume. Each entry is a pair: a number of blocks, `NumBlocks`, and the size
/// of each block in bytes, `Length`. In contracts, a block map is the list of its entries, without
/// the pair of zeros that ends it. (PI specification, volume 3, section 3.2.1.1,
/// `EFI_FV_BLOCK_MAP_ENTRY`.)
#[derive(Drop)]
pub struct BlockMap {
    blocks: Vec<(u32, u32)>,
}

impl Model for BlockMap {
    ghost Value = { List (ℕ × ℕ) };

    ghost view = { λ m. m.blocks.items };
}

impl BlockMap {
    /// Makes a block map of the entries in a vector. Takes no memory.
    pub fn from_vec(blocks: Vec<(u32, u32)>) -> BlockMap
        ensures { result ≡ blocks.items }
    {
        BlockMap { blocks }
    }

    /// Returns the entries, in order.
    pub fn as_slice(&self) -> &[(u32, u32)]
        ensures { result.now ≡ self.now }
    {
        self.blocks.as_slice()
    }
}

// Returns the pair that the bytes begin with, and the bytes after it, or None if there are fewer
// than 8 bytes.
pub(crate) fn first_pair(bytes: &[u8]) -> Option<((u32, u32), &[u8])>
    ensures some { IfSome result
        (λ e. (pairs_of bytes.now ≡ e.0 ∷ pairs_of e.1.now) × (length bytes.now ≡ 8 + length e.1.now)) }
    ensures none { IfNone result (length bytes.now < 8) }
{
    if bytes.len() < BLOCK_ENTRY_LEN {
        return None;
    }
    let count = u32_at(bytes, NUM_BLOCKS_OFFSET);
    let size = u32_at(bytes, BLOCK_LENGTH_OFFSET);
    let (_, after) = bytes.split_at(BLOCK_ENTRY_LEN);
    Some(((count, size), after))
}
