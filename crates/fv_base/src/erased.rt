//! Bytes that all have the same value, such as erased bytes.

ghost use Rattle.std.specs.Prelude.{◌≡◌, ◌↔◌, IsTrue};
ghost use Rattle.fv_base.specs.Flash.{AllAre};
ghost use Rattle.fv_base.specs.Measures.{all_are};

/// The number of bytes that are tested at once before the loop decides whether to go on.
const PIECE: usize = 4096;

// Returns whether every byte of the piece has this value. Reads all of the bytes.
#[tactic(auto, using(crate::proofs::ErasedLemmas::looked_at))]
fn is_filled(piece: &[u8], byte: u8) -> bool
    ensures { IsTrue result ↔ AllAre byte piece.now }
{
    let mut seen = 0u8;
    for other in piece {
        seen |= *other ^ byte;
    }
    seen == 0
}

/// Returns whether every byte has the value `byte`, which is also true if there are no bytes.
/// Allocates no memory.
pub fn all_are(bytes: &[u8], byte: u8) -> bool
    ensures test { result ≡ all_are byte bytes.now }
    ensures all { IsTrue result ↔ AllAre byte bytes.now }
{
    let mut rest = bytes;
    while rest.len() >= PIECE {
        let (piece, after) = rest.split_at(PIECE);
        if !is_filled(piece, byte) {
            return false;
        }
        rest = after;
    }
    is_filled(rest, byte)
}
